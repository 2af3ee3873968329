//! The commands of packets.

ghost use Rattle.std.specs.Prelude.{◌≡◌, IfSome, IsTrue, Some};
ghost use Rattle.hmc_codes.specs.declared.command.Command.{Command};
ghost use Rattle.hmc_codes.specs.declared.command.Command.TheVariants.{Mdwr};
ghost use Rattle.hmc_codes.specs.Codes.{command_of};
ghost use Rattle.hmc_codes.specs.Commands.{code_of, word_of, layout_of, family_of, reply_of, permits, allows_of, is_posted, payload_len_of};
ghost use Rattle.hmc_codes.specs.Text.{is_mdwr};

use crate::{Family, Layout, Length, table};

/// The command of a packet: a variant for each code of the table.
///
/// `Wr..` and `Rd..` write and read this number of bytes, and `Mdwr` and `Mdrd` a register. A logic
/// unit performs `Unit..`. The other requests are atomic commands on 8 or 16 bytes. Those that
/// begin with `P`, except `Pret`, are posted: they have no response. `Null`, `Pret`, `Tret` and
/// `Irtry` control a link. `..Rs` and `Error` are responses.
#[derive(Clone, Copy, PartialEq, Eq)]
pub enum Command {
    Null,
    Pret,
    Tret,
    Irtry,
    Wr16,
    Wr32,
    Wr48,
    Wr64,
    Wr80,
    Wr96,
    Wr112,
    Wr128,
    Wr256,
    Pwr16,
    Pwr32,
    Pwr48,
    Pwr64,
    Pwr80,
    Pwr96,
    Pwr112,
    Pwr128,
    Pwr256,
    Rd16,
    Rd32,
    Rd48,
    Rd64,
    Rd80,
    Rd96,
    Rd112,
    Rd128,
    Rd256,
    Mdwr,
    Mdrd,
    Bwr,
    TwoAdd8,
    Add16,
    Pbwr,
    PtwoAdd8,
    Padd16,
    Bwr8r,
    TwoAdds8r,
    Adds16r,
    Xor16,
    Or16,
    Nor16,
    And16,
    Nand16,
    Inc8,
    Pinc8,
    Casgt8,
    Caslt8,
    Casgt16,
    Caslt16,
    Caseq8,
    Caszero16,
    Eq16,
    Eq8,
    Swap16,
    Unit0,
    Unit1,
    Unit2,
    Unit3,
    Unit4,
    Unit5,
    Unit6,
    Unit7,
    RdRs,
    WrRs,
    MdRdRs,
    MdWrRs,
    Error,
}

impl Command {
    /// The command with this code, if the table has one.
    pub fn from_code(code: u8) -> Option<Self>
        ensures value { result ≡ command_of code }
        ensures found { IfSome result (λ command. code_of command ≡ code) }
        ensures only { (command : Command) → code_of command ≡ code → result ≡ Some command }
    {
        table::with_code(code)
    }

    /// The code in a packet's header, 0 to 120.
    #[inline(always)]
    pub fn code(self) -> u8
        ensures { result ≡ code_of self }
    {
        table::code(self)
    }

    /// The word of a script line and of a report. Scripts have only those of requests.
    pub fn word(self) -> &'static str
        ensures { result.now ≡ word_of self }
    {
        table::word(self)
    }

    /// The fields of a packet with this command.
    #[inline(always)]
    pub fn layout(self) -> Layout
        ensures { result ≡ layout_of self }
    {
        table::layout(self)
    }

    /// The family: flow packets, requests or responses.
    #[inline(always)]
    pub fn family(self) -> Family
        ensures { result ≡ family_of self }
    {
        match self.layout() {
            Layout::Null | Layout::Pret | Layout::Tret | Layout::Irtry => Family::Flow,
            Layout::Ask => Family::Ask,
            Layout::Reply => Family::Reply,
        }
    }

    /// The command of the response to a request. `None` if the request is posted, or the command is
    /// not that of a request.
    #[inline(always)]
    pub fn reply(self) -> Option<Self>
        ensures { result ≡ reply_of self }
    {
        table::reply(self)
    }

    /// Whether it is a request without a response.
    pub fn posted(self) -> bool
        ensures { result ≡ is_posted self }
    {
        self.layout() == Layout::Ask && self.reply().is_none()
    }

    /// Whether it writes a register: then a script has its value in decimal, and no payload.
    pub fn is_mdwr(self) -> bool
        ensures value { result ≡ is_mdwr self }
        ensures only { IsTrue result → self ≡ Mdwr }
    {
        matches!(self, Command::Mdwr)
    }

    /// Whether the table permits packets of this many flits, with header and tail.
    pub fn allows(self, flits: u8) -> bool
        ensures { result ≡ allows_of self flits }
    {
        table::length(self).permits(flits)
    }

    /// The payload bytes of a request with this command: 0, 16 to 128 in steps of 16, or 256.
    pub fn payload_len(self) -> usize
        ensures { result ≡ payload_len_of self }
    {
        match table::length(self) {
            Length::Fixed(flits) => 16 * usize::from(flits.saturating_sub(1)),
            Length::Data => 0,
        }
    }
}
