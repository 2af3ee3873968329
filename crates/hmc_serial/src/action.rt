//! The kinds of requests.

ghost use Rattle.std.specs.Prelude.{◌≡◌};
ghost use Rattle.std.specs.Option.{option_map};
ghost use Rattle.hmc_atomics.specs.Operations.{atomic_of};
ghost use Rattle.hmc_serial.specs.Actions.{action_of};

use hmc_atomics::Atomic;
use hmc_codes::Command;

/// The action that a request asks for.
#[derive(Clone, Copy)]
pub enum Action {
    /// This number of bytes is read.
    Read(u16),
    /// The payload is written.
    Write,
    /// The value of a register is read.
    ReadRegister,
    /// A register gets the number in the payload's first four bytes.
    WriteRegister,
    /// An atomic command.
    Act(Atomic),
    /// The work of the logic unit with this code.
    Work(u8),
}

impl Action {
    // The action of an atomic command.
    fn atomic(command: Command) -> Option<Self>
        ensures { result ≡ option_map Action.Act (atomic_of command) }
    {
        Atomic::of(command).map(Action::Act)
    }

    /// The action of a command, or `None` if it isn't that of a request.
    #[tactic(auto, unfolding(crate::specs::Actions::action_of))]
    pub fn of(command: Command) -> Option<Self>
        ensures { result ≡ action_of command }
    {
        match command {
            Command::Wr16 | Command::Wr32 | Command::Wr48 | Command::Wr64 | Command::Wr80 => Some(
                Action::Write,
            ),
            Command::Wr96 | Command::Wr112 | Command::Wr128 | Command::Wr256 => Some(Action::Write),
            Command::Pwr16 | Command::Pwr32 | Command::Pwr48 | Command::Pwr64 | Command::Pwr80 =>
                Some(Action::Write),
            Command::Pwr96 | Command::Pwr112 | Command::Pwr128 | Command::Pwr256 => Some(
                Action::Write,
            ),
            Command::Rd16 => Some(Action::Read(16)),
            Command::Rd32 => Some(Action::Read(32)),
            Command::Rd48 => Some(Action::Read(48)),
            Command::Rd64 => Some(Action::Read(64)),
            Command::Rd80 => Some(Action::Read(80)),
            Command::Rd96 => Some(Action::Read(96)),
            Command::Rd112 => Some(Action::Read(112)),
            Command::Rd128 => Some(Action::Read(128)),
            Command::Rd256 => Some(Action::Read(256)),
            Command::Mdrd => Some(Action::ReadRegister),
            Command::Mdwr => Some(Action::WriteRegister),
            Command::Unit0 => Some(Action::Work(0)),
            Command::Unit1 => Some(Action::Work(1)),
            Command::Unit2 => Some(Action::Work(2)),
            Command::Unit3 => Some(Action::Work(3)),
            Command::Unit4 => Some(Action::Work(4)),
            Command::Unit5 => Some(Action::Work(5)),
            Command::Unit6 => Some(Action::Work(6)),
            Command::Unit7 => Some(Action::Work(7)),
            _ => Action::atomic(command),
        }
    }
}
