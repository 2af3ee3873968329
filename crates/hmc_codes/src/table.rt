//! The command table: one row per command.

ghost use Rattle.std.specs.Prelude.{◌≡◌};
ghost use Rattle.hmc_codes.specs.Codes.{all_commands, command_of};
ghost use Rattle.hmc_codes.specs.Commands.{code_of, word_of, layout_of, length_of, reply_of};
ghost use Rattle.hmc_codes.specs.declared.command.Command.{Command};

use crate::{Command, Layout, Length};

// The table. A row has the word of a script line and of a report, the code in a packet's header,
// the fields of a packet or the command of the response, and the flits of a packet, with header and
// tail. The macro `rows` makes something of the rows.
macro_rules! table {
    ($rows:ident $($command:expr)?) => {
        $rows! {
            $($command;)?
            Null => flow_packet("null", 0, Layout::Null),
            Pret => flow_packet("pret", 1, Layout::Pret),
            Tret => flow_packet("tret", 2, Layout::Tret),
            Irtry => flow_packet("irtry", 3, Layout::Irtry),
            Wr16 => answered_request("wr16", 8, Length::Fixed(2), Command::WrRs),
            Wr32 => answered_request("wr32", 9, Length::Fixed(3), Command::WrRs),
            Wr48 => answered_request("wr48", 10, Length::Fixed(4), Command::WrRs),
            Wr64 => answered_request("wr64", 11, Length::Fixed(5), Command::WrRs),
            Wr80 => answered_request("wr80", 12, Length::Fixed(6), Command::WrRs),
            Wr96 => answered_request("wr96", 13, Length::Fixed(7), Command::WrRs),
            Wr112 => answered_request("wr112", 14, Length::Fixed(8), Command::WrRs),
            Wr128 => answered_request("wr128", 15, Length::Fixed(9), Command::WrRs),
            Wr256 => answered_request("wr256", 79, Length::Fixed(17), Command::WrRs),
            Pwr16 => posted_request("pwr16", 24, Length::Fixed(2)),
            Pwr32 => posted_request("pwr32", 25, Length::Fixed(3)),
            Pwr48 => posted_request("pwr48", 26, Length::Fixed(4)),
            Pwr64 => posted_request("pwr64", 27, Length::Fixed(5)),
            Pwr80 => posted_request("pwr80", 28, Length::Fixed(6)),
            Pwr96 => posted_request("pwr96", 29, Length::Fixed(7)),
            Pwr112 => posted_request("pwr112", 30, Length::Fixed(8)),
            Pwr128 => posted_request("pwr128", 31, Length::Fixed(9)),
            Pwr256 => posted_request("pwr256", 95, Length::Fixed(17)),
            Rd16 => answered_request("rd16", 48, Length::Fixed(1), Command::RdRs),
            Rd32 => answered_request("rd32", 49, Length::Fixed(1), Command::RdRs),
            Rd48 => answered_request("rd48", 50, Length::Fixed(1), Command::RdRs),
            Rd64 => answered_request("rd64", 51, Length::Fixed(1), Command::RdRs),
            Rd80 => answered_request("rd80", 52, Length::Fixed(1), Command::RdRs),
            Rd96 => answered_request("rd96", 53, Length::Fixed(1), Command::RdRs),
            Rd112 => answered_request("rd112", 54, Length::Fixed(1), Command::RdRs),
            Rd128 => answered_request("rd128", 55, Length::Fixed(1), Command::RdRs),
            Rd256 => answered_request("rd256", 119, Length::Fixed(1), Command::RdRs),
            Mdwr => answered_request("mdwr", 16, Length::Fixed(2), Command::MdWrRs),
            Mdrd => answered_request("mdrd", 40, Length::Fixed(1), Command::MdRdRs),
            Bwr => answered_request("bwr", 17, Length::Fixed(2), Command::WrRs),
            TwoAdd8 => answered_request("2add8", 18, Length::Fixed(2), Command::WrRs),
            Add16 => answered_request("add16", 19, Length::Fixed(2), Command::WrRs),
            Pbwr => posted_request("pbwr", 33, Length::Fixed(2)),
            PtwoAdd8 => posted_request("p2add8", 34, Length::Fixed(2)),
            Padd16 => posted_request("padd16", 35, Length::Fixed(2)),
            Bwr8r => answered_request("bwr8r", 81, Length::Fixed(2), Command::RdRs),
            TwoAdds8r => answered_request("2adds8r", 82, Length::Fixed(2), Command::RdRs),
            Adds16r => answered_request("adds16r", 83, Length::Fixed(2), Command::RdRs),
            Xor16 => answered_request("xor16", 64, Length::Fixed(2), Command::RdRs),
            Or16 => answered_request("or16", 65, Length::Fixed(2), Command::RdRs),
            Nor16 => answered_request("nor16", 66, Length::Fixed(2), Command::RdRs),
            And16 => answered_request("and16", 67, Length::Fixed(2), Command::RdRs),
            Nand16 => answered_request("nand16", 68, Length::Fixed(2), Command::RdRs),
            Inc8 => answered_request("inc8", 80, Length::Fixed(1), Command::WrRs),
            Pinc8 => posted_request("pinc8", 84, Length::Fixed(1)),
            Casgt8 => answered_request("casgt8", 96, Length::Fixed(2), Command::RdRs),
            Caslt8 => answered_request("caslt8", 97, Length::Fixed(2), Command::RdRs),
            Casgt16 => answered_request("casgt16", 98, Length::Fixed(2), Command::RdRs),
            Caslt16 => answered_request("caslt16", 99, Length::Fixed(2), Command::RdRs),
            Caseq8 => answered_request("caseq8", 100, Length::Fixed(2), Command::RdRs),
            Caszero16 => answered_request("caszero16", 101, Length::Fixed(2), Command::RdRs),
            Eq16 => answered_request("eq16", 104, Length::Fixed(2), Command::WrRs),
            Eq8 => answered_request("eq8", 105, Length::Fixed(2), Command::WrRs),
            Swap16 => answered_request("swap16", 106, Length::Fixed(2), Command::RdRs),
            Unit0 => answered_request("unit0", 112, Length::Fixed(2), Command::RdRs),
            Unit1 => answered_request("unit1", 113, Length::Fixed(2), Command::RdRs),
            Unit2 => answered_request("unit2", 114, Length::Fixed(2), Command::RdRs),
            Unit3 => answered_request("unit3", 115, Length::Fixed(2), Command::RdRs),
            Unit4 => answered_request("unit4", 116, Length::Fixed(2), Command::RdRs),
            Unit5 => answered_request("unit5", 117, Length::Fixed(2), Command::RdRs),
            Unit6 => answered_request("unit6", 118, Length::Fixed(2), Command::RdRs),
            Unit7 => answered_request("unit7", 120, Length::Fixed(2), Command::RdRs),
            RdRs => response_packet("rd_rs", 56, Length::Data),
            WrRs => response_packet("wr_rs", 57, Length::Fixed(1)),
            MdRdRs => response_packet("md_rd_rs", 58, Length::Fixed(2)),
            MdWrRs => response_packet("md_wr_rs", 59, Length::Fixed(1)),
            Error => response_packet("error", 62, Length::Fixed(1)),
        }
    };
}

macro_rules! variants {
    ($($variant:ident => $kind:ident $values:tt,)*) => { [$(Command::$variant,)*] };
}

macro_rules! with_code {
    (
        $code:expr;
        $($variant:ident => $kind:ident ($word:literal, $number:literal, $($rest:tt)*),)*
    ) => {
        match $code { $($number => Some(Command::$variant),)* _ => None }
    };
}

macro_rules! words {
    (
        $command:expr;
        $($variant:ident => $kind:ident ($word:literal, $($rest:tt)*),)*
    ) => {
        match $command { $(Command::$variant => $word,)* }
    };
}

macro_rules! numbers {
    (
        $command:expr;
        $($variant:ident => $kind:ident ($word:literal, $number:literal, $($rest:tt)*),)*
    ) => {
        match $command { $(Command::$variant => $number,)* }
    };
}

macro_rules! layouts {
    (
        $command:expr;
        $($variant:ident => $kind:ident ($word:literal, $number:literal, $($rest:tt)*),)*
    ) => {
        match $command { $(Command::$variant => layout!($kind $($rest)*),)* }
    };
}

macro_rules! layout {
    (flow_packet $layout:expr) => { $layout };
    (answered_request $($rest:tt)*) => { Layout::Ask };
    (posted_request $($rest:tt)*) => { Layout::Ask };
    (response_packet $($rest:tt)*) => { Layout::Reply };
}

macro_rules! lengths {
    (
        $command:expr;
        $($variant:ident => $kind:ident ($word:literal, $number:literal, $($rest:tt)*),)*
    ) => {
        match $command { $(Command::$variant => length!($kind $($rest)*),)* }
    };
}

macro_rules! length {
    (flow_packet $layout:expr) => { Length::Fixed(1) };
    (answered_request $flits:expr, $reply:expr) => { $flits };
    (posted_request $flits:expr) => { $flits };
    (response_packet $flits:expr) => { $flits };
}

macro_rules! replies {
    (
        $command:expr;
        $($variant:ident => $kind:ident ($word:literal, $number:literal, $($rest:tt)*),)*
    ) => {
        match $command { $(Command::$variant => reply!($kind $($rest)*),)* }
    };
}

macro_rules! reply {
    (answered_request $flits:expr, $reply:expr) => { Some($reply) };
    ($kind:ident $($rest:tt)*) => { None };
}

/// All commands, in the order of the table.
pub const COMMANDS: [Command; 71] = table!(variants);

/// The command with this code, if the table has one.
#[tactic(auto, unfolding(crate::specs::Codes::command_of, crate::specs::Codes::all_commands, crate::specs::Table::table_line))]
pub fn with_code(code: u8) -> Option<Command>
    ensures { result ≡ command_of code }
{
    table!(with_code code)
}

/// The code in a packet's header.
#[tactic(auto, unfolding(crate::specs::Table::table_line))]
#[inline(always)]
pub fn code(command: Command) -> u8
    ensures { result ≡ code_of command }
{
    table!(numbers command)
}

/// The word of a script line and of a report.
#[tactic(auto, unfolding(crate::specs::Table::table_line))]
pub fn word(command: Command) -> &'static str
    ensures { result.now ≡ word_of command }
{
    table!(words command)
}

/// The fields of a packet.
#[tactic(auto, unfolding(crate::specs::Table::table_line))]
#[inline(always)]
pub fn layout(command: Command) -> Layout
    ensures { result ≡ layout_of command }
{
    table!(layouts command)
}

/// The flits of a packet, with header and tail.
#[tactic(auto, unfolding(crate::specs::Table::table_line))]
pub fn length(command: Command) -> Length
    ensures { result ≡ length_of command }
{
    table!(lengths command)
}

/// The command of the response.
#[tactic(auto, unfolding(crate::specs::Table::table_line))]
#[inline(always)]
pub fn reply(command: Command) -> Option<Command>
    ensures { result ≡ reply_of command }
{
    table!(replies command)
}
