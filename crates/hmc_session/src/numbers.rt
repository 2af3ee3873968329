//! Steps by numbers.

ghost use Rattle.std.specs.Prelude.{◌≡◌, IfSome};
ghost use Rattle.hmc_schedule.specs.Plan.{HasFlit};
ghost use Rattle.hmc_session.specs.Numbers.{lift_named, step_named};

use hmc_codes::{Flit, Lift};
use hmc_schedule::Step;

// The queue of answers of a vault, or with 255 that of the registers.
fn lift_named(number: u8) -> Lift
    ensures { result ≡ lift_named number }
{
    if number == 255 {
        Lift::Registers
    } else {
        Lift::Vault(number)
    }
}

/// The step that these numbers name, if they name one. The kinds are 0 give, 1 send, 2 land,
/// 3 shift, 4 spread, 5 bank, 6 registers, 7 lift, 8 take, 9 through, 10 unlock and 11 retire; the
/// numbers are those of its words, in order; the mask is that of a landing. A lift of the answers
/// of the registers has 255 in place of a vault.
#[tactic(auto, unfolding(crate::specs::Numbers::step_named))]
pub fn step_named(kind: u8, a: u8, b: u8, c: u8, mask: &Flit) -> Option<Step>
    ensures named { result ≡ step_named kind a b c mask.now }
    ensures mask { IfSome result HasFlit }
{
    match kind {
        0 => Some(Step::Give(a)),
        1 => Some(Step::Send(a)),
        2 => Some(Step::Land(a, *mask)),
        3 => Some(Step::Shift(a, b)),
        4 => Some(Step::Spread(a, b)),
        5 => Some(Step::Bank(a, b, c)),
        6 => Some(Step::Registers(a)),
        7 => Some(Step::Lift(a, lift_named(b))),
        8 => Some(Step::Take(a)),
        9 => Some(Step::Through(a, b)),
        10 => Some(Step::Unlock(a)),
        11 => Some(Step::Retire(a)),
        _ => None,
    }
}
