//! The tokens of a direction.

ghost use Rattle.std.specs.Prelude.{◌≡◌, ◌+◌, ◌-◌};
ghost use Rattle.hmc_ends.specs.End.{row_held};

use crate::end::End;
use hmc_codes::TokenRow;
use hmc_tokens::Intake;

// What is left of so many tokens after these.
fn rest(advertised: u16, held: u32, transit: u32, used: u32, due: u32) -> u32
    ensures { result ≡ advertised - (held + transit + used + due) }
{
    let others = u64::from(held) + u64::from(transit) + u64::from(used) + u64::from(due);
    u64::from(advertised).saturating_sub(others) as u32
}

/// The tokens of a direction, from the end that sends in it to the one at which it lands.
pub fn token_row<S: Intake, L: Intake>(from: &End<S>, to: &End<L>) -> TokenRow
    ensures { result ≡ row_held from.now to.now }
{
    let (held, transit) = (from.held(), from.transit());
    let (used, due) = (to.used(), to.due());
    TokenRow {
        held,
        transit,
        used,
        due,
        returning: rest(from.advertised(), held, transit, used, due),
    }
}
