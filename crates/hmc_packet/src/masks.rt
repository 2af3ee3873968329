//! Masks of landings.

ghost use Rattle.std.specs.Prelude.{◌≡◌};
ghost use Rattle.hmc_packet.specs.Masks.{under_mask, changes};

use crate::reading::is_null;
use hmc_codes::Flit;

// A flit with the bits of a mask inverted, byte by byte.
fn inverted(mask: &Flit, flit: &Flit) -> Flit
    ensures { result ≡ under_mask mask.now flit.now }
{
    let mut changed = *flit;
    for i in 0..16 {
        changed[i] = mask[i] ^ flit[i];
    }
    changed
}

/// A flit with the bits of a mask inverted. Most masks are zero.
pub fn under_mask(mask: &Flit, flit: &Flit) -> Flit
    ensures { result ≡ under_mask mask.now flit.now }
{
    if is_null(mask) {
        *flit
    } else {
        inverted(mask, flit)
    }
}

/// Whether a mask changes a flit: it isn't zero.
#[tactic(auto, unfolding(crate::specs::Reading::is_null))]
pub fn changes(mask: &Flit) -> bool
    ensures { result ≡ changes mask.now }
{
    !is_null(mask)
}
