//! The line of each entry, appended to a text of fixed size that has room for it. No line takes
//! memory.

ghost use Rattle.std.specs.Prelude.{◌≡◌, ◌<◌, ◌≤◌, ◌+◌, ◌∷◌, [], ◌++◌, length, codes, OnOk, OnErr, string_bytes};
ghost use Rattle.std.specs.Fmt.{decimal};
ghost use Rattle.hex.specs.Hex.{encode_lower};
ghost use Rattle.hmc_codes.specs.Text.{line, request_text, answer_text};
ghost use Rattle.hmc_entries.specs.Lines.{line_of, tag_text, request_words, unit_text, what_text, outcome_text, goal_text, lift_text};

use crate::idle_line::idle_line;
use crate::idle_step::without_mask;
use crate::pieces::{
    push_flit, push_goal, push_lift, push_numbered, push_outcome, push_request_end, push_tag,
    push_twice_numbered, push_unit, push_what,
};
use crate::{Entry, Goal};
use arrayvec::ArrayString;
use hmc_codes::{
    Answer, Flit, Lift, LineText, Memory, Request, Unit, append_decimal, append_spaced,
};
use hmc_packet::{Outcome, What, is_null};
use std::alloc::Global;

/// The line of a request that a host gave.
pub(crate) fn gave_line<const N: usize>(
    into: &mut ArrayString<N>,
    host: u8,
    tag: Option<u16>,
    poisoned: bool,
    request: &Request,
)
    requires room { length into.old.bytes + 2048 ≤ N }
    ensures text { into.new.bytes ≡ into.old.bytes ++
        line (codes "gave" ∷ decimal host ∷ tag_text tag ∷ request_words poisoned request.now) }
    ensures short { length into.new.bytes < length into.old.bytes + 2048 }
{
    push_numbered(into, "gave", host);
    push_tag(into, tag);
    push_request_end(into, poisoned, request);
}

/// The line of a flit that was sent.
///
/// Most are NULLs, whose digits are known. Others stand out of line, so that nothing is saved for a
/// call where there is none.
#[tactic(auto, using(crate::proofs::NullLines::zero_digits))]
#[inline(always)]
pub(crate) fn sent_line<const N: usize>(
    into: &mut ArrayString<N>,
    direction: u8,
    what: What,
    flit: &Flit,
)
    requires room { length into.old.bytes + 2048 ≤ N }
    ensures text { into.new.bytes ≡ into.old.bytes ++
        line (codes "sent" ∷ decimal direction ∷ what_text what ∷ encode_lower flit.now ∷ []) }
    ensures short { length into.new.bytes < length into.old.bytes + 2048 }
{
    if matches!(what, What::Null) && is_null(flit) {
        push_numbered(into, "sent", direction);
        into.push_str(" null 00000000000000000000000000000000\n");
    } else {
        any_sent_line(into, direction, what, flit);
    }
}

// Any flit that was sent.
#[inline(never)]
fn any_sent_line<const N: usize>(into: &mut ArrayString<N>, direction: u8, what: What, flit: &Flit)
    requires room { length into.old.bytes + 2048 ≤ N }
    ensures text { into.new.bytes ≡ into.old.bytes ++
        line (codes "sent" ∷ decimal direction ∷ what_text what ∷ encode_lower flit.now ∷ []) }
    ensures short { length into.new.bytes < length into.old.bytes + 2048 }
{
    push_numbered(into, "sent", direction);
    push_what(into, what);
    push_flit(into, flit);
    into.push_str("\n");
}

/// The line of a flit that landed, as that of one that was sent.
#[tactic(auto, using(crate::proofs::NullLines::zero_digits))]
#[inline(always)]
pub(crate) fn landed_line<const N: usize>(
    into: &mut ArrayString<N>,
    direction: u8,
    flit: &Flit,
    outcome: Outcome,
)
    requires room { length into.old.bytes + 2048 ≤ N }
    ensures text { into.new.bytes ≡ into.old.bytes ++
        line (codes "landed" ∷ decimal direction ∷ encode_lower flit.now ∷ outcome_text outcome ∷
        []) }
    ensures short { length into.new.bytes < length into.old.bytes + 2048 }
{
    if matches!(outcome, Outcome::Quiet) && is_null(flit) {
        push_numbered(into, "landed", direction);
        into.push_str(" 00000000000000000000000000000000 quiet\n");
    } else {
        any_landed_line(into, direction, flit, outcome);
    }
}

// Any flit that landed.
#[inline(never)]
fn any_landed_line<const N: usize>(
    into: &mut ArrayString<N>,
    direction: u8,
    flit: &Flit,
    outcome: Outcome,
)
    requires room { length into.old.bytes + 2048 ≤ N }
    ensures text { into.new.bytes ≡ into.old.bytes ++
        line (codes "landed" ∷ decimal direction ∷ encode_lower flit.now ∷ outcome_text outcome ∷
        []) }
    ensures short { length into.new.bytes < length into.old.bytes + 2048 }
{
    push_numbered(into, "landed", direction);
    push_flit(into, flit);
    push_outcome(into, outcome);
}

/// The line of a packet that moved on.
pub(crate) fn shifted_line<const N: usize>(
    into: &mut ArrayString<N>,
    cube: u8,
    port: u8,
    goal: Goal,
)
    requires room { length into.old.bytes + 2048 ≤ N }
    ensures text { into.new.bytes ≡ into.old.bytes ++
        line (codes "shifted" ∷ decimal cube ∷ decimal port ∷ goal_text goal ∷ []) }
    ensures short { length into.new.bytes < length into.old.bytes + 2048 }
{
    push_twice_numbered(into, "shifted", cube, port);
    push_goal(into, goal);
    into.push_str("\n");
}

/// The line of a packet that a cube dropped.
pub(crate) fn dropped_line<const N: usize>(into: &mut ArrayString<N>, cube: u8, port: u8)
    requires room { length into.old.bytes + 2048 ≤ N }
    ensures text { into.new.bytes ≡ into.old.bytes ++
        line (codes "dropped" ∷ decimal cube ∷ decimal port ∷ []) }
    ensures short { length into.new.bytes < length into.old.bytes + 2048 }
{
    push_twice_numbered(into, "dropped", cube, port);
    into.push_str("\n");
}

/// The line of a request that went to its bank.
pub(crate) fn spread_line<const N: usize>(into: &mut ArrayString<N>, cube: u8, vault: u8, bank: u8)
    requires room { length into.old.bytes + 2048 ≤ N }
    ensures text { into.new.bytes ≡ into.old.bytes ++
        line (codes "spread" ∷ decimal cube ∷ decimal vault ∷ decimal bank ∷ []) }
    ensures short { length into.new.bytes < length into.old.bytes + 2048 }
{
    push_twice_numbered(into, "spread", cube, vault);
    append_spaced(into, u64::from(bank));
    into.push_str("\n");
}

/// The line of a request that was executed.
pub(crate) fn executed_line<const N: usize>(
    into: &mut ArrayString<N>,
    unit: Unit,
    host: u8,
    tag: Option<u16>,
    request: &Request,
    answer: &Answer,
)
    requires room { length into.old.bytes + 2048 ≤ N }
    ensures text { into.new.bytes ≡ into.old.bytes ++
        line (codes "executed" ∷ unit_text unit ∷ decimal host ∷ tag_text tag ∷
        request_text request.now ∷ answer_text answer.now ∷ []) }
    ensures short { length into.new.bytes < length into.old.bytes + 2048 }
{
    into.push_str("executed");
    push_unit(into, unit);
    append_spaced(into, u64::from(host));
    push_tag(into, tag);
    into.push_str(" ");
    request.print(into);
    push_answer_end(into, answer);
}

// The answer ends the line.
fn push_answer_end<const N: usize>(into: &mut ArrayString<N>, answer: &Answer)
    requires room { length into.old.bytes + 521 ≤ N }
    ensures text { into.new.bytes ≡
        into.old.bytes ++ (32 ∷ (answer_text answer.now ++ (10 ∷ []))) }
    ensures few { length into.new.bytes ≤ length into.old.bytes + 521 }
{
    into.push_str(" ");
    answer.print(into);
    into.push_str("\n");
}

/// The line of an answer that moved to a port.
pub(crate) fn lifted_line<const N: usize>(into: &mut ArrayString<N>, cube: u8, from: Lift, port: u8)
    requires room { length into.old.bytes + 2048 ≤ N }
    ensures text { into.new.bytes ≡ into.old.bytes ++
        line (codes "lifted" ∷ decimal cube ∷ lift_text from ∷ (codes "p" ++ decimal port) ∷ []) }
    ensures short { length into.new.bytes < length into.old.bytes + 2048 }
{
    push_numbered(into, "lifted", cube);
    push_lift(into, from);
    into.push_str(" p");
    append_decimal(into, u64::from(port));
    into.push_str("\n");
}

/// The line of an answer that a host took.
pub(crate) fn took_line<const N: usize>(
    into: &mut ArrayString<N>,
    host: u8,
    tag: u16,
    answer: &Answer,
)
    requires room { length into.old.bytes + 2048 ≤ N }
    ensures text { into.new.bytes ≡ into.old.bytes ++
        line (codes "took" ∷ decimal host ∷ decimal tag ∷ answer_text answer.now ∷ []) }
    ensures short { length into.new.bytes < length into.old.bytes + 2048 }
{
    push_numbered(into, "took", host);
    append_spaced(into, u64::from(tag));
    push_answer_end(into, answer);
}

/// The line of a packet that a host dropped.
pub(crate) fn discarded_line<const N: usize>(into: &mut ArrayString<N>, host: u8)
    requires room { length into.old.bytes + 2048 ≤ N }
    ensures text { into.new.bytes ≡ into.old.bytes ++ line (codes "discarded" ∷ decimal host ∷ []) }
    ensures short { length into.new.bytes < length into.old.bytes + 2048 }
{
    push_numbered(into, "discarded", host);
    into.push_str("\n");
}

/// The line of a packet that went on while it arrived.
pub(crate) fn through_line<const N: usize>(
    into: &mut ArrayString<N>,
    cube: u8,
    port: u8,
    direction: u8,
)
    requires room { length into.old.bytes + 2048 ≤ N }
    ensures text { into.new.bytes ≡ into.old.bytes ++
        line (codes "through" ∷ decimal cube ∷ decimal port ∷ decimal direction ∷ []) }
    ensures short { length into.new.bytes < length into.old.bytes + 2048 }
{
    push_twice_numbered(into, "through", cube, port);
    append_spaced(into, u64::from(direction));
    into.push_str("\n");
}

/// The line of a receiver that lost its framing.
pub(crate) fn unlocked_line<const N: usize>(into: &mut ArrayString<N>, direction: u8)
    requires room { length into.old.bytes + 2048 ≤ N }
    ensures text { into.new.bytes ≡ into.old.bytes ++
        line (codes "unlocked" ∷ decimal direction ∷ []) }
    ensures short { length into.new.bytes < length into.old.bytes + 2048 }
{
    push_numbered(into, "unlocked", direction);
    into.push_str("\n");
}

/// The line of a logic unit that was retired.
pub(crate) fn retired_line<const N: usize>(into: &mut ArrayString<N>, slot: u8)
    requires room { length into.old.bytes + 2048 ≤ N }
    ensures text { into.new.bytes ≡ into.old.bytes ++ line (codes "retired" ∷ decimal slot ∷ []) }
    ensures short { length into.new.bytes < length into.old.bytes + 2048 }
{
    push_numbered(into, "retired", slot);
    into.push_str("\n");
}

/// The line of a landing that passed.
pub(crate) fn passed_line<const N: usize>(into: &mut ArrayString<N>, direction: u8, flit: &Flit)
    requires room { length into.old.bytes + 2048 ≤ N }
    ensures text { into.new.bytes ≡ into.old.bytes ++
        line (codes "passed" ∷ decimal direction ∷ encode_lower flit.now ∷ []) }
    ensures short { length into.new.bytes < length into.old.bytes + 2048 }
{
    push_numbered(into, "passed", direction);
    push_flit(into, flit);
    into.push_str("\n");
}

impl Entry {
    /// Writes the line of the entry into an empty text, with a line feed at its end.
    #[tactic(auto, unfolding(crate::specs::Lines::line_of))]
    pub fn line(&self, into: &mut LineText)
        requires empty { into.old.bytes ≡ [] }
        ensures text { into.new.bytes ≡ line_of self.now }
        ensures short { length (line_of self.now) < 2048 }
    {
        match self {
            Entry::Gave {
                host,
                tag,
                poisoned,
                request,
            } => gave_line(into, *host, *tag, *poisoned, request),
            Entry::Sent {
                direction,
                what,
                flit,
            } => sent_line(into, *direction, *what, flit),
            Entry::Landed {
                direction,
                flit,
                outcome,
            } => landed_line(into, *direction, flit, *outcome),
            Entry::Shifted { cube, port, goal } => shifted_line(into, *cube, *port, *goal),
            Entry::Dropped { cube, port } => dropped_line(into, *cube, *port),
            Entry::Spread { cube, vault, bank } => spread_line(into, *cube, *vault, *bank),
            Entry::Executed {
                unit,
                host,
                tag,
                request,
                answer,
            } => executed_line(into, *unit, *host, *tag, request, answer),
            Entry::Lifted { cube, from, port } => lifted_line(into, *cube, *from, *port),
            Entry::Took { host, tag, answer } => took_line(into, *host, *tag, answer),
            Entry::Discarded { host } => discarded_line(into, *host),
            Entry::Through {
                cube,
                port,
                direction,
            } => through_line(into, *cube, *port, *direction),
            Entry::Unlocked { direction } => unlocked_line(into, *direction),
            Entry::Retired { slot } => retired_line(into, *slot),
            Entry::Passed { direction, flit } => passed_line(into, *direction, flit),
            Entry::Idle { step, cause } => idle_line(into, without_mask(step), *cause),
        }
    }

    /// Appends the line, or nothing. `Memory` if out of memory.
    pub fn print(&self, alloc: Global, into: &mut String) -> Result<(), Memory>
        ensures printed { OnOk result
            (string_bytes into.new ≡ string_bytes into.old ++ line_of self.now) }
        ensures unchanged { OnErr result (string_bytes into.new ≡ string_bytes into.old) }
    {
        let _ = alloc;
        let mut line = LineText::new();
        self.line(&mut line);
        into.push_str(line.as_str())?;
        Ok(())
    }
}
