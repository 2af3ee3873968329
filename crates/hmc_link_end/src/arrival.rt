//! What a landing brings to the end at which it lands.

ghost use Rattle.std.specs.Prelude.{◌≡◌, ◌≤◌, ◌+◌, ◌++◌, ◌∷◌, [], ◌&&◌, ◌||◌, true, List, filter, sum_by, option_map};
ghost use Rattle.hmc_codes.specs.Limits.{most_tokens};
ghost use Rattle.hmc_packet.specs.Landings.{flits_in};
ghost use Rattle.hmc_packet.specs.Receptions.{landed_with};
ghost use Rattle.hmc_send.specs.Entries.{SenderEntry};
ghost use Rattle.hmc_send.specs.LinkSenders.{run_entries};
ghost use Rattle.hmc_send.specs.Places.{is_token};
ghost use Rattle.hmc_send.specs.StandsFor.{StandsFor};
ghost use Rattle.hmc_tokens.specs.Account.{tokens_of_code};
ghost use Rattle.hmc_ends.specs.End.{flits_seen};
ghost use Rattle.hmc_ends.specs.Landings.{arriving, listed, stored, is_start_run, noted, pending_changed, KeepsSizes};

use hmc_codes::{Flit, Layout};
use hmc_packet::{Kind, Landed, Mode, Outcome, Packet};
use hmc_send::Sender;
use hmc_tokens::{Account, Intake, rtc_tokens};

/// This packet, if a landing with this outcome accepted it, poisoned or not.
pub fn arriving(outcome: Outcome, packet: &Packet) -> Option<&Packet>
    ensures { option_map (λ packet. packet.now) result
        ≡ arriving (landed_with outcome packet.now) }
{
    match outcome {
        Outcome::Accepted | Outcome::Poisoned => Some(packet),
        Outcome::Quiet
        | Outcome::Trained
        | Outcome::Gathered
        | Outcome::Repeat
        | Outcome::AbortedBad(_)
        | Outcome::AbortedOrder
        | Outcome::Ran(_) => None,
    }
}

/// The same, if it is a request or a response.
pub fn stored_packet(outcome: Outcome, packet: &Packet) -> Option<&Packet>
    ensures { listed (option_map (λ packet. packet.now) result)
        ≡ stored (landed_with outcome packet.now) }
{
    match arriving(outcome, packet) {
        Some(packet) if is_token(packet) => Some(packet),
        _ => None,
    }
}

/// The flits of the request or response that a landing accepted; 0 where it accepted none.
pub fn flits_stored(landed: &Landed) -> u32
    ensures { result ≡ flits_in (stored landed.now) }
{
    match landed {
        Landed::Accepted(packet) | Landed::Poisoned(packet) if is_token(packet) => {
            u32::from(packet.flits())
        }
        _ => 0,
    }
}

/// Whether a packet takes tokens: a request or a response.
pub fn is_token(packet: &Packet) -> bool
    ensures { result ≡ is_token packet.now }
{
    matches!(packet.command.layout(), Layout::Ask | Layout::Reply)
}

/// Whether one of two is changed.
pub fn either(before: bool, now: bool) -> bool
    ensures { result ≡ (before || now) }
{
    before || now
}

/// Whether all four hold.
pub fn all_four(a: bool, b: bool, c: bool, d: bool) -> bool
    ensures { result ≡ ((a && b) && (c && d)) }
{
    a && b && (c && d)
}

/// Whether a change passes: a check succeeded over changed flits.
pub fn passes(checked: bool, changed: bool) -> bool
    ensures { result ≡ (checked && changed) }
{
    checked && changed
}

/// Whether a pending flit is changed.
pub fn pending_changed(outcome: Outcome, changed: bool) -> bool
    ensures { result ≡ pending_changed outcome changed }
{
    match outcome {
        Outcome::Gathered => changed,
        Outcome::Quiet
        | Outcome::Trained
        | Outcome::Accepted
        | Outcome::Poisoned
        | Outcome::Repeat
        | Outcome::AbortedBad(_)
        | Outcome::AbortedOrder
        | Outcome::Ran(_) => false,
    }
}

fn is_start_run(outcome: Outcome) -> bool
    ensures { result ≡ is_start_run outcome }
{
    matches!(outcome, Outcome::Ran(Kind::Start))
}

/// The flits that a receiver has gathered, if it is Good and there are any.
pub fn flits_seen(mode: Mode, gathered: &[Flit]) -> Option<&[Flit]>
    ensures { option_map (λ flits. flits.now) result ≡ flits_seen mode gathered.now }
{
    match mode {
        Mode::Train | Mode::Abort => None,
        Mode::Good => match gathered {
            [] => None,
            [_, ..] => Some(gathered),
        },
    }
}

/// A return pointer that was taken acknowledges packets.
#[inline(always)]
pub fn note(sender: &mut Sender, rrp: Option<u16>)
    ensures stands { (past : List SenderEntry) → StandsFor sender.old past →
        StandsFor sender.new (noted sender.old.retry.profile rrp past) }
    ensures sizes { KeepsSizes sender.old sender.new }
{
    if let Some(rrp) = rrp {
        let _ = sender.acknowledge(rrp);
    }
}

/// After a run of Starts a sender begins again.
pub fn note_run(sender: &mut Sender, outcome: Outcome)
    ensures stands { (past : List SenderEntry) → StandsFor sender.old past →
        StandsFor sender.new (run_entries outcome ++ past) }
    ensures sizes { KeepsSizes sender.old sender.new }
{
    if is_start_run(outcome) {
        sender.ran();
    }
}

/// A packet that was accepted returns tokens, and goes into the buffer if it is a request or a
/// response.
#[inline(never)]
pub fn store<I: Intake>(intake: &mut I, account: &mut Account, packet: &Packet)
    requires held { account.old.held + tokens_of_code packet.now.rtc ≤ most_tokens }
    requires room { is_token packet.now ≡ true →
        sum_by (I.cost intake.old) (I.packets intake.old) + I.cost intake.old packet.now
        ≤ I.size intake.old }
    ensures packets { I.packets intake.new
        ≡ I.packets intake.old ++ filter is_token (packet.now ∷ []) }
    ensures size { I.size intake.new ≡ I.size intake.old }
    ensures cost { I.cost intake.new ≡ I.cost intake.old }
    ensures account { account.new ≡ record account.old {
      held = account.old.held + tokens_of_code packet.now.rtc;
    } }
{
    packet.invariant();
    account.gain(rtc_tokens(packet.rtc));
    if is_token(packet) {
        intake.put(packet);
    }
}
