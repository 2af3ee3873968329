//! The texts of requests and answers in scripts and reports.

ghost use Rattle.std.specs.Prelude.{◌≡◌, ◌≤◌, ◌+◌, ◌∷◌, [], ◌++◌, length, codes, IfOk, string_bytes};
ghost use Rattle.std.specs.Int.{w32, to_be_bytes};
ghost use Rattle.hex.specs.Hex.{encode_lower};
ghost use Rattle.hmc_codes.specs.Commands.{word_of};
ghost use Rattle.hmc_codes.specs.Text.{spaced_words, flag_text, is_mdwr, value_in, operand_of, operand_words, request_with, request_text, answer_text};

use crate::pieces::{LineText, append_bytes, append_hex_number, append_spaced};
use crate::{Answer, Command, Memory, Payload, Request};
use arrayvec::ArrayString;
use std::alloc::Global;

impl Payload {
    // The number in the first four bytes.
    fn value(&self) -> u32
        requires { 4 ≤ length self.now }
        ensures { result ≡ value_in self.now }
    {
        let bytes = self.as_slice();
        u32::from_le_bytes([bytes[0], bytes[1], bytes[2], bytes[3]])
    }
}

// The word of a command has at most nine letters.
#[tactic(auto, using(crate::proofs::Words::word_length))]
fn push_command<const N: usize>(into: &mut ArrayString<N>, command: Command)
    requires room { length into.old.bytes + 9 ≤ N }
    ensures text { into.new.bytes ≡ into.old.bytes ++ word_of command }
    ensures few { length into.new.bytes ≤ length into.old.bytes + 9 }
{
    into.push_str(command.word());
}

// A request with no payload.
fn push_bare<const N: usize>(into: &mut ArrayString<N>, request: &Request)
    requires room { length into.old.bytes + 49 ≤ N }
    ensures text { into.new.bytes ≡ into.old.bytes ++ request_with request.now [] }
    ensures few { length into.new.bytes ≤ length into.old.bytes + 49 }
{
    push_command(into, request.command);
    append_spaced(into, u64::from(request.cube));
    into.push_str(" ");
    append_hex_number(into, request.address);
}

// The word after the address, if there is one, with a space before it.
fn push_operand<const N: usize>(into: &mut ArrayString<N>, request: &Request)
    requires room { length into.old.bytes + 513 ≤ N }
    ensures text { into.new.bytes ≡ into.old.bytes ++ operand_words
        (operand_of (is_mdwr request.now.command) request.now.payload) }
    ensures few { length into.new.bytes ≤ length into.old.bytes + 513 }
{
    request.invariant();
    let payload = &request.payload;
    if request.command.is_mdwr() {
        append_spaced(into, u64::from(payload.value()));
    } else if !payload.is_empty() {
        into.push_str(" ");
        append_bytes(into, payload.as_slice());
    }
}

impl Request {
    /// Appends the request as a script has it, without the host and without a line feed: the
    /// command's word, the cube in decimal, `0x` and the address in hexadecimal, and the payload
    /// in lower-case hexadecimal. An `mdwr` has its value in decimal in place of the payload. If
    /// there is no payload, the address is the last word. It has at most 562 bytes.
    pub fn print<const N: usize>(&self, into: &mut ArrayString<N>)
        requires room { length into.old.bytes + 562 ≤ N }
        ensures text { into.new.bytes ≡ into.old.bytes ++ request_text self.now }
        ensures few { length into.new.bytes ≤ length into.old.bytes + 562 }
    {
        push_bare(into, self);
        push_operand(into, self);
    }

    /// What `print` appends, as a text of its own. `Memory` if out of memory.
    pub fn text(&self, alloc: Global) -> Result<String, Memory>
        ensures { IfOk result (λ text. string_bytes text ≡ request_text self.now) }
    {
        let mut line = LineText::new();
        self.print(&mut line);
        let text = line.as_str();
        Ok(format!(in alloc; "{text}")?)
    }
}

fn flag_digit(flag: bool) -> &'static str
    ensures { result.now ≡ flag_text flag }
{
    if flag { "1" } else { "0" }
}

// The answer to a read.
fn push_read<const N: usize>(into: &mut ArrayString<N>, flag: bool, payload: &Payload)
    requires room { length into.old.bytes + 519 ≤ N }
    ensures text { into.new.bytes ≡ into.old.bytes ++ spaced_words
        (codes "read" ∷ flag_text flag ∷ encode_lower payload.now ∷ []) }
    ensures few { length into.new.bytes ≤ length into.old.bytes + 519 }
{
    into.push_str("read ");
    into.push_str(flag_digit(flag));
    into.push_str(" ");
    append_bytes(into, payload.as_slice());
}

// The value of a register.
fn push_register<const N: usize>(into: &mut ArrayString<N>, value: u32)
    requires room { length into.old.bytes + 17 ≤ N }
    ensures text { into.new.bytes ≡ into.old.bytes ++ spaced_words
        (codes "register" ∷ encode_lower (to_be_bytes w32 value) ∷ []) }
    ensures few { length into.new.bytes ≤ length into.old.bytes + 17 }
{
    into.push_str("register ");
    append_bytes(into, &value.to_be_bytes());
}

impl Answer {
    /// Appends the answer as a report has it, without a line feed: its word, then the flag as 0 or
    /// 1 and the bytes in lower-case hexadecimal, the register's value in eight digits, or the
    /// error's number in decimal. It has at most 519 bytes.
    #[tactic(auto, unfolding(crate::specs::Text::answer_text))]
    pub fn print<const N: usize>(&self, into: &mut ArrayString<N>)
        requires room { length into.old.bytes + 519 ≤ N }
        ensures text { into.new.bytes ≡ into.old.bytes ++ answer_text self.now }
        ensures few { length into.new.bytes ≤ length into.old.bytes + 519 }
    {
        match self {
            Answer::Silent => into.push_str("silent"),
            Answer::Done { flag } => {
                into.push_str("done ");
                into.push_str(flag_digit(*flag));
            }
            Answer::Read { flag, payload } => push_read(into, *flag, payload),
            Answer::Register { value } => push_register(into, *value),
            Answer::Stored => into.push_str("stored"),
            Answer::Refused { errstat } => {
                into.push_str("error");
                append_spaced(into, u64::from(*errstat));
            }
        }
    }
}
