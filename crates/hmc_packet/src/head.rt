//! What a packet's first flit alone shows.

ghost use Rattle.std.specs.Prelude.{◌≡◌};
ghost use Rattle.hmc_packet.specs.Head.{named_by, head_with, head_in};

use crate::header::Header;
use crate::reading::{command_in, header_in, is_transaction};
use hmc_codes::{Command, Flit, Layout};

/// The head of a request or a response.
#[derive(Clone, Copy, PartialEq, Eq)]
pub struct Head {
    /// Of a request or a response.
    pub command: Command,
    /// The packet's length in flits, 1 to 17.
    pub flits: u8,
    /// Below 8.
    pub cube: u8,
    /// The host link that a response goes to, below 8. Of a request 0: its SLID is in its tail.
    pub slid: u8,
}

#[tactic(auto, unfolding(crate::specs::Head::named_by))]
pub fn named_by(flit: &Flit) -> Option<Command>
    ensures { result ≡ named_by flit.now }
{
    command_in(header_in(flit))
}

#[tactic(auto, unfolding(crate::specs::Head::head_with))]
fn head_with(layout: Layout, command: Command, word: u64) -> Option<Head>
    ensures { result ≡ head_with layout command word }
{
    if is_transaction(layout) && Header::is_clean(layout, word) {
        let header = Header::unpack(layout, word);
        Some(Head {
            command,
            flits: Header::flits_in(word),
            cube: header.cube,
            slid: header.slid,
        })
    } else {
        None
    }
}

/// The head that a flit has as a packet's first one.
///
/// `None` where its command is not that of a request or a response, or doesn't allow its LNG, or
/// where a reserved bit of its header is not zero.
#[tactic(auto, unfolding(crate::specs::Head::head_in))]
pub fn head_of(flit: &Flit) -> Option<Head>
    ensures { result ≡ head_in flit.now }
{
    let command = named_by(flit)?;
    head_with(command.layout(), command, header_in(flit))
}
