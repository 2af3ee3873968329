//! Requests.

ghost use Rattle.std.specs.Prelude.{◌≡◌, ◌≢◌, ◌≤◌, ◌+◌, ◌*◌, ◌/◌, ◌++◌, length};
ghost use Rattle.hmc_codes.specs.Commands.{family_of, payload_len_of};
ghost use Rattle.hmc_codes.specs.Limits.{most_cubes};
ghost use Rattle.hmc_codes.specs.declared.family.Family.TheVariants as families;
ghost use Rattle.hmc_codes.specs.declared.command.Command.TheVariants as commands;
ghost use Rattle.hmc_make.specs.Draws.{after, drawn_bytes};
ghost use Rattle.hmc_make.specs.Requests.{command_of, request_from, after_request};

use crate::draws::Draws;
use arrayvec::ArrayVec;
use hmc_codes::{Command, Payload, Request};

// The command of what was drawn.
#[tactic(auto, unfolding(crate::specs::Requests::command_of, hmc_codes::specs::Table::table_line))]
fn command_of(drawn: u32) -> Command
    ensures value { result ≡ command_of drawn }
    ensures asks { family_of result ≡ families.Ask }
    ensures whole { 4 * (payload_len_of result / 4) ≡ payload_len_of result }
    ensures few { payload_len_of result ≤ 64 }
    ensures other { result ≢ commands.Mdwr }
{
    match drawn % 6 {
        0 => Command::Wr16,
        1 => Command::Rd16,
        2 => Command::Wr64,
        3 => Command::Rd64,
        4 => Command::Add16,
        _ => Command::Inc8,
    }
}

/// The bytes of the longest payload that is drawn.
type Bytes = ArrayVec<u8, 64>;

// Appends bytes for which there is room.
fn append(bytes: &mut Bytes, more: &[u8])
    requires { length bytes.old.items + length more.now ≤ 64 }
    ensures { bytes.new.items ≡ bytes.old.items ++ more.now }
{
    let _ = bytes.try_extend_from_slice(more);
}

// The bytes of so many draws.
fn draw_bytes(draws: &mut Draws, number: usize) -> Bytes
    requires { number ≤ 16 }
    ensures bytes { result.items ≡ drawn_bytes number draws.old.state }
    ensures state { draws.new.state ≡ after number draws.old.state }
{
    let mut bytes = Bytes::new();
    'draws: for _draw in 0..number {
        append(&mut bytes, &draws.draw().to_le_bytes());
    }
    bytes
}

// A payload of these bytes.
fn payload_of(bytes: &[u8]) -> Payload
    requires { length bytes.now ≤ 256 }
    ensures { result ≡ bytes.now }
{
    match Payload::from_slice(bytes) {
        Some(payload) => payload,
        None => unreachable!(),
    }
}

/// Draws a request to one of so many cubes, 1 to 8.
#[tactic(auto, unfolding(crate::specs::Requests::request_from))]
pub fn draw_request(draws: &mut Draws, cubes: u8) -> Request
    requires some { 1 ≤ cubes }
    requires few { cubes ≤ most_cubes }
    ensures request { result ≡ request_from cubes draws.old.state }
    ensures state { draws.new.state ≡ after_request draws.old.state }
{
    let command = command_of(draws.draw());
    let cube = (draws.draw() % u32::from(cubes)) as u8;
    let address = 256 * u64::from(draws.draw() % 64);
    let bytes = draw_bytes(draws, command.payload_len() / 4);
    let payload = payload_of(&bytes);
    Request {
        command,
        cube,
        address,
        payload,
    }
}
