//! The steps that did nothing, in four bytes.

ghost use Rattle.std.specs.Prelude.{◌≡◌};
ghost use Rattle.hmc_entries.specs.IdleStep.{idle_step, idle_words};
ghost use Rattle.hmc_entries.specs.Lines.{step_words};

use hmc_codes::{Lift, ZERO_FLIT};
use hmc_schedule::Step;

/// A step that did nothing. It has no mask: a landing of no flit shows the one that changes
/// nothing.
#[derive(Clone, Copy)]
pub enum IdleStep {
    /// The host.
    Give(u8),
    /// The direction.
    Send(u8),
    /// The direction.
    Land(u8),
    /// The cube and the port.
    Shift(u8, u8),
    /// The cube and the vault.
    Spread(u8, u8),
    /// The cube, the vault and the bank.
    Bank(u8, u8, u8),
    /// The cube.
    Registers(u8),
    /// The cube, and where the answer waits.
    Lift(u8, Lift),
    /// The host.
    Take(u8),
    /// The cube and the port.
    Through(u8, u8),
    /// The direction.
    Unlock(u8),
    /// The slot of the logic unit.
    Retire(u8),
}

impl IdleStep {
    /// The step. A landing has the mask that changes nothing.
    #[tactic(auto, unfolding(hmc_codes::specs::Flit::zero_flit))]
    pub(crate) fn step(self) -> Step
        ensures { result ≡ idle_step self }
    {
        match self {
            IdleStep::Give(host) => Step::Give(host),
            IdleStep::Send(direction) => Step::Send(direction),
            IdleStep::Land(direction) => Step::Land(direction, ZERO_FLIT),
            IdleStep::Shift(cube, port) => Step::Shift(cube, port),
            IdleStep::Spread(cube, vault) => Step::Spread(cube, vault),
            IdleStep::Bank(cube, vault, bank) => Step::Bank(cube, vault, bank),
            IdleStep::Registers(cube) => Step::Registers(cube),
            IdleStep::Lift(cube, from) => Step::Lift(cube, from),
            IdleStep::Take(host) => Step::Take(host),
            IdleStep::Through(cube, port) => Step::Through(cube, port),
            IdleStep::Unlock(direction) => Step::Unlock(direction),
            IdleStep::Retire(slot) => Step::Retire(slot),
        }
    }
}

/// A step without its mask, which no line of an idle step shows.
pub(crate) fn without_mask(step: &Step) -> IdleStep
    ensures { idle_words result ≡ step_words step.now }
{
    match step {
        Step::Give(host) => IdleStep::Give(*host),
        Step::Send(direction) => IdleStep::Send(*direction),
        Step::Land(direction, _) => IdleStep::Land(*direction),
        Step::Shift(cube, port) => IdleStep::Shift(*cube, *port),
        Step::Spread(cube, vault) => IdleStep::Spread(*cube, *vault),
        Step::Bank(cube, vault, bank) => IdleStep::Bank(*cube, *vault, *bank),
        Step::Registers(cube) => IdleStep::Registers(*cube),
        Step::Lift(cube, from) => IdleStep::Lift(*cube, *from),
        Step::Take(host) => IdleStep::Take(*host),
        Step::Through(cube, port) => IdleStep::Through(*cube, *port),
        Step::Unlock(direction) => IdleStep::Unlock(*direction),
        Step::Retire(slot) => IdleStep::Retire(*slot),
    }
}
