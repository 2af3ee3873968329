//! Entries against those before them, and what is kept of them.

ghost use Rattle.std.specs.Prelude.{◌≡◌, ◌<◌, Bool, List, ◌∷◌, slice_index_or, IfSome};
ghost use Rattle.hmc_codes.specs.Request.{RequestFields};
ghost use Rattle.hmc_codes.specs.Limits.{most_hosts, most_requests, tags};
ghost use Rattle.hmc_entries.specs.declared.entry.Entry.{Entry};
ghost use Rattle.hmc_entries.specs.declared.entry.Entry.TheVariants.{Gave, Took, Retired};
ghost use Rattle.hmc_log.specs.Before.{out_under};
ghost use Rattle.hmc_log.specs.Counts.{Knows};
ghost use Rattle.hmc_log.specs.Text.{may_give, answers_to, may_retire};

use crate::LogKind;
use crate::answers::is_answer_to;
use crate::counts::Counts;
use crate::given::Taken;
use hmc_codes::{Command, MOST_REQUESTS};

/// Whether a host may give one more request, under this tag.
pub fn may_give(counts: &Counts, host: u8, tag: Option<u16>) -> Result<(), LogKind>
    requires host { host < most_hosts }
    requires tag { IfSome tag (λ t. t < tags) }
    ensures value { (past : List Entry) → Knows counts.now past →
        result ≡ may_give past host tag }
{
    if counts.given(host) >= MOST_REQUESTS {
        return Err(LogKind::TooMany);
    }
    if let Some(tag) = tag {
        if counts.out(host, tag).is_some() {
            return Err(LogKind::Tag);
        }
    }
    Ok(())
}

/// Whether an answer is one to the request that is out under its tag.
pub fn answers_to(counts: &Counts, taken: &Taken) -> Result<(), LogKind>
    requires host { taken.now.host < most_hosts }
    requires tag { taken.now.tag < tags }
    ensures { (past : List Entry) → Knows counts.now past →
        result ≡ answers_to (out_under taken.now.host taken.now.tag past) taken.now.answer }
{
    match counts.out(taken.host, taken.tag) {
        None => Err(LogKind::Tag),
        Some(command) => {
            if is_answer_to(command, &taken.answer) {
                Ok(())
            } else {
                Err(LogKind::Answer)
            }
        }
    }
}

/// Whether the logic unit of a slot may be retired.
pub fn may_retire(counts: &Counts, slot: u8) -> Result<(), LogKind>
    requires { slot < 8 }
    ensures { (past : List Entry) → Knows counts.now past → result ≡ may_retire past slot }
{
    if counts.retired(slot) {
        Err(LogKind::Slot)
    } else {
        Ok(())
    }
}

/// Keeps that a request with this command was given.
pub fn note_given(counts: &mut Counts, host: u8, tag: Option<u16>, command: Command)
    requires host { host < most_hosts }
    requires tag { IfSome tag (λ t. t < tags) }
    requires few { slice_index_or counts.old.given host 0 < most_requests }
    ensures { (past : List Entry) (poisoned : Bool) (request : RequestFields) →
        request.command ≡ command → Knows counts.old past →
        Knows counts.new (Gave host tag poisoned request ∷ past) }
{
    counts.add_given(host);
    if let Some(tag) = tag {
        counts.set_out(host, tag, Some(command));
    }
}

/// Keeps that an answer was taken.
pub fn note_taken(counts: &mut Counts, taken: &Taken)
    requires host { taken.now.host < most_hosts }
    requires tag { taken.now.tag < tags }
    ensures { (past : List Entry) → Knows counts.old past → Knows counts.new
        (Took taken.now.host taken.now.tag taken.now.answer ∷ past) }
{
    counts.set_out(taken.host, taken.tag, None);
}

/// Keeps that a logic unit was retired.
pub fn note_retired(counts: &mut Counts, slot: u8)
    requires { slot < 8 }
    ensures { (past : List Entry) → Knows counts.old past →
        Knows counts.new (Retired slot ∷ past) }
{
    counts.add_retired(slot);
}
