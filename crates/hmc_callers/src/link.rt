//! A caller of `hmc_link`.

ghost use Rattle.std.specs.Prelude.{◌≡◌, List, true, false, not};
ghost use Rattle.hmc_codes.specs.Link.{LinkFields};
ghost use Rattle.hmc_ends.specs.Answers.{after_call};
ghost use Rattle.hmc_link.specs.Held.{sending_end};
ghost use Rattle.hmc_link.specs.StandsFor.{LinkStandsFor};
ghost use Rattle.hmc_send.specs.Given.{IsTaken};
ghost use Rattle.hmc_send.specs.LinkCalls.{LinkCall};
ghost use Rattle.hmc_send.specs.LinkEntries.{LinkEntry};

use hmc_codes::Flit;
use hmc_ends::LinkLanded;
use hmc_link::{Link, Toward};
use hmc_packet::Packet;
use hmc_tokens::Intake;

/// Hands a request or a response to a direction of a link, if its output queue has room for it.
/// Returns whether it has; else nothing changes. No landing of the link has passed.
pub fn offer<A: Intake, B: Intake>(link: &mut Link<A, B>, toward: Toward, packet: Packet) -> bool
    requires going { link.old.going ≡ true }
    requires fit { IsTaken (sending_end toward link.old).setup.profile packet }
    ensures handed { (sizes : LinkFields) (past : List LinkEntry) →
        LinkStandsFor sizes link.old past → result ≡ true →
        LinkStandsFor sizes link.new (after_call sizes past (LinkCall.hand toward packet)) }
    ensures unchanged { result ≡ false → link.new ≡ link.old }
    ensures going { link.new.going ≡ true }
{
    let has_room = link.room(toward);
    if has_room {
        link.hand(toward, packet);
    }
    has_room
}

/// Lands the next flit of a direction under a mask. Returns whether the link goes on: where a check
/// succeeds over a changed flit, no call may change the link any more.
pub fn goes_on<A: Intake, B: Intake>(link: &mut Link<A, B>, toward: Toward, mask: Flit) -> bool
    requires { link.old.going ≡ true }
    ensures { result ≡ link.new.going }
{
    match link.land(toward, mask) {
        LinkLanded::Passed(_) => false,
        LinkLanded::Empty | LinkLanded::Came { .. } => true,
    }
}
