//! How a step went.

ghost use Rattle.std.specs.Prelude.{◌≡◌};
ghost use Rattle.hmc_entries.specs.IdleStep.{idle_step};
ghost use Rattle.hmc_entries.specs.declared.entry.Entry.TheVariants as entries;
ghost use Rattle.hmc_net.specs.declared.went.Went.TheVariants as wents;

use hmc_entries::{Cause, IdleStep, LastEntry};

/// How a step went.
#[derive(Clone, Copy)]
pub enum Went {
    /// Something happened.
    Done,
    /// Nothing happened, for this cause.
    Idle(Cause),
    /// A flit landed, and a check succeeded over flits that a mask changed. No step may follow.
    Passed,
}

/// The last entry becomes that of a step that did nothing, for this cause.
#[inline(always)]
pub fn idle(last: &mut LastEntry, step: IdleStep, cause: Cause) -> Went
    ensures last { last.new ≡ entries.Idle (idle_step step) cause }
    ensures went { result ≡ wents.Idle cause }
{
    last.idle(step, cause);
    Went::Idle(cause)
}
