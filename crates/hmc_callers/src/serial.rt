//! A caller of `hmc_serial`.

ghost use Rattle.std.specs.Prelude.{◌≡◌, ◌<◌, ◌↔◌, IsSome, IfSome, IfNone, length};
ghost use Rattle.hmc_serial.specs.Machine.{answer_to, apply, machine_of};

use hmc_codes::{Answer, Request};
use hmc_serial::Plain;
use hmc_units::Workbench;

/// Performs a request with the logic units of a bench, and returns its answer; `None` if the
/// machine lacks its cube. Then nothing changes.
pub fn answer_of<B: Workbench>(
    plain: &mut Plain,
    request: &Request,
    bench: &mut B,
) -> Option<Answer>
    ensures there { IsSome result ↔ (request.now.cube < length plain.old) }
    ensures answer { IfSome result (λ answer. answer
        ≡ answer_to (machine_of plain.old (B.slots bench.old)) request.now) }
    ensures state { IfSome result (λ answer. machine_of plain.new (B.slots bench.new)
        ≡ apply (machine_of plain.old (B.slots bench.old)) request.now) }
    ensures unchanged { IfNone result (machine_of plain.new (B.slots bench.new)
        ≡ machine_of plain.old (B.slots bench.old)) }
{
    if usize::from(request.cube) < plain.cubes() {
        Some(plain.apply(request, bench))
    } else {
        None
    }
}
