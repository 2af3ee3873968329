//! Lines are read back as entries.
//!
//! The words of a line tell which entry it may be; then the line of that entry is compared with it.
//! So nothing but printed lines is accepted, however freely the words are read.

ghost use Rattle.std.specs.Prelude.{◌≡◌, ◌↔◌, Some, IfSome, IsTrue};
ghost use Rattle.std.specs.Str.{bytes_eq};
ghost use Rattle.hmc_words.specs.Taking.{Takes};
ghost use Rattle.hmc_text.specs.Words.{words_of};
ghost use Rattle.hmc_entries.specs.declared.entry.Entry.{Entry};
ghost use Rattle.hmc_entries.specs.Parse.{IsPrintable, IsLineOf, IsShown};
ghost use Rattle.hmc_entries.specs.ParseEntry.{take_tag, take_flit, gave_in, sent_in, landed_in, shifted_in, dropped_in, spread_in, executed_in, lifted_in, took_in, discarded_in, through_in, unlocked_in, retired_in, passed_in, idle_in, entry_after, entry_in};

use crate::Entry;
use crate::head::{Head, head_of};
use crate::parse_parts::{answer_in, outcome_in, take_byte, take_step, take_unit};
use crate::parse_words::{cause_named, flit_of, goal_of, lift_of, port_of, tag_of, what_of};
use hmc_codes::{Flit, LineText};
use hmc_script::take_request;
use hmc_words::WordReader;

/// Tags fit 16 bits.
const TAGS: u64 = 1 << 16;

#[tactic(auto, unfolding(crate::specs::ParseEntry::take_tag))]
fn take_tag(words: &mut WordReader) -> Option<Option<u16>>
    ensures { Takes (λ tag. tag) result words.new (take_tag words.old) }
{
    let word = words.word()?;
    tag_of(word)
}

#[tactic(auto, unfolding(crate::specs::ParseEntry::take_flit))]
fn take_flit(words: &mut WordReader) -> Option<Flit>
    ensures { Takes (λ flit. flit) result words.new (take_flit words.old) }
{
    let word = words.word()?;
    flit_of(word)
}

#[tactic(auto, unfolding(crate::specs::ParseEntry::gave_in))]
fn gave_in(words: &mut WordReader) -> Option<Entry>
    ensures value { result ≡ gave_in words.old }
    ensures shown { IfSome result IsShown }
{
    let host = take_byte(words)?;
    let tag = take_tag(words)?;
    let poisoned = words.is_next(b"poison".as_slice());
    let request = take_request(words)?;
    Some(Entry::Gave {
        host,
        tag,
        poisoned,
        request,
    })
}

#[tactic(auto, unfolding(crate::specs::ParseEntry::sent_in))]
fn sent_in(words: &mut WordReader) -> Option<Entry>
    ensures value { result ≡ sent_in words.old }
    ensures shown { IfSome result IsShown }
{
    let direction = take_byte(words)?;
    let word = words.word()?;
    let what = what_of(word)?;
    let flit = take_flit(words)?;
    Some(Entry::Sent {
        direction,
        what,
        flit,
    })
}

#[tactic(auto, unfolding(crate::specs::ParseEntry::landed_in))]
fn landed_in(words: &mut WordReader) -> Option<Entry>
    ensures value { result ≡ landed_in words.old }
    ensures shown { IfSome result IsShown }
{
    let direction = take_byte(words)?;
    let flit = take_flit(words)?;
    let outcome = outcome_in(words)?;
    Some(Entry::Landed {
        direction,
        flit,
        outcome,
    })
}

#[tactic(auto, unfolding(crate::specs::ParseEntry::shifted_in))]
fn shifted_in(words: &mut WordReader) -> Option<Entry>
    ensures value { result ≡ shifted_in words.old }
    ensures shown { IfSome result IsShown }
{
    let cube = take_byte(words)?;
    let port = take_byte(words)?;
    let word = words.word()?;
    let goal = goal_of(word)?;
    Some(Entry::Shifted { cube, port, goal })
}

#[tactic(auto, unfolding(crate::specs::ParseEntry::dropped_in))]
fn dropped_in(words: &mut WordReader) -> Option<Entry>
    ensures value { result ≡ dropped_in words.old }
    ensures shown { IfSome result IsShown }
{
    let cube = take_byte(words)?;
    let port = take_byte(words)?;
    Some(Entry::Dropped { cube, port })
}

#[tactic(auto, unfolding(crate::specs::ParseEntry::spread_in))]
fn spread_in(words: &mut WordReader) -> Option<Entry>
    ensures value { result ≡ spread_in words.old }
    ensures shown { IfSome result IsShown }
{
    let cube = take_byte(words)?;
    let vault = take_byte(words)?;
    let bank = take_byte(words)?;
    Some(Entry::Spread { cube, vault, bank })
}

#[tactic(auto, unfolding(crate::specs::ParseEntry::executed_in))]
fn executed_in(words: &mut WordReader) -> Option<Entry>
    ensures value { result ≡ executed_in words.old }
    ensures shown { IfSome result IsShown }
{
    let unit = take_unit(words)?;
    let host = take_byte(words)?;
    let tag = take_tag(words)?;
    let request = take_request(words)?;
    let answer = answer_in(words)?;
    Some(Entry::Executed {
        unit,
        host,
        tag,
        request,
        answer,
    })
}

#[tactic(auto, unfolding(crate::specs::ParseEntry::lifted_in))]
fn lifted_in(words: &mut WordReader) -> Option<Entry>
    ensures value { result ≡ lifted_in words.old }
    ensures shown { IfSome result IsShown }
{
    let cube = take_byte(words)?;
    let word = words.word()?;
    let from = lift_of(word)?;
    let word = words.word()?;
    let port = port_of(word)?;
    Some(Entry::Lifted { cube, from, port })
}

#[tactic(auto, unfolding(crate::specs::ParseEntry::took_in))]
fn took_in(words: &mut WordReader) -> Option<Entry>
    ensures value { result ≡ took_in words.old }
    ensures shown { IfSome result IsShown }
{
    let host = take_byte(words)?;
    let tag = words.number(TAGS)? as u16;
    let answer = answer_in(words)?;
    Some(Entry::Took { host, tag, answer })
}

#[tactic(auto, unfolding(crate::specs::ParseEntry::discarded_in))]
fn discarded_in(words: &mut WordReader) -> Option<Entry>
    ensures value { result ≡ discarded_in words.old }
    ensures shown { IfSome result IsShown }
{
    let host = take_byte(words)?;
    Some(Entry::Discarded { host })
}

#[tactic(auto, unfolding(crate::specs::ParseEntry::through_in))]
fn through_in(words: &mut WordReader) -> Option<Entry>
    ensures value { result ≡ through_in words.old }
    ensures shown { IfSome result IsShown }
{
    let cube = take_byte(words)?;
    let port = take_byte(words)?;
    let direction = take_byte(words)?;
    Some(Entry::Through {
        cube,
        port,
        direction,
    })
}

#[tactic(auto, unfolding(crate::specs::ParseEntry::unlocked_in))]
fn unlocked_in(words: &mut WordReader) -> Option<Entry>
    ensures value { result ≡ unlocked_in words.old }
    ensures shown { IfSome result IsShown }
{
    let direction = take_byte(words)?;
    Some(Entry::Unlocked { direction })
}

#[tactic(auto, unfolding(crate::specs::ParseEntry::retired_in))]
fn retired_in(words: &mut WordReader) -> Option<Entry>
    ensures value { result ≡ retired_in words.old }
    ensures shown { IfSome result IsShown }
{
    let slot = take_byte(words)?;
    Some(Entry::Retired { slot })
}

#[tactic(auto, unfolding(crate::specs::ParseEntry::passed_in))]
fn passed_in(words: &mut WordReader) -> Option<Entry>
    ensures value { result ≡ passed_in words.old }
    ensures shown { IfSome result IsShown }
{
    let direction = take_byte(words)?;
    let flit = take_flit(words)?;
    Some(Entry::Passed { direction, flit })
}

#[tactic(auto, unfolding(crate::specs::ParseEntry::idle_in))]
fn idle_in(words: &mut WordReader) -> Option<Entry>
    ensures value { result ≡ idle_in words.old }
    ensures shown { IfSome result IsShown }
{
    let step = take_step(words)?;
    let word = words.word()?;
    let cause = cause_named(word)?;
    Some(Entry::Idle { step, cause })
}

#[tactic(auto, unfolding(crate::specs::ParseEntry::entry_after))]
fn entry_after(words: &mut WordReader, head: Head) -> Option<Entry>
    ensures value { result ≡ entry_after head words.old }
    ensures shown { IfSome result IsShown }
{
    match head {
        Head::Gave => gave_in(words),
        Head::Sent => sent_in(words),
        Head::Landed => landed_in(words),
        Head::Shifted => shifted_in(words),
        Head::Dropped => dropped_in(words),
        Head::Spread => spread_in(words),
        Head::Executed => executed_in(words),
        Head::Lifted => lifted_in(words),
        Head::Took => took_in(words),
        Head::Discarded => discarded_in(words),
        Head::Through => through_in(words),
        Head::Unlocked => unlocked_in(words),
        Head::Retired => retired_in(words),
        Head::Passed => passed_in(words),
        Head::Idle => idle_in(words),
    }
}

// The entry whose line this is, if it is an entry line.
#[tactic(auto, unfolding(crate::specs::ParseEntry::entry_in))]
fn candidate(line: &str) -> Option<Entry>
    ensures value { result ≡ entry_in (words_of line.now) }
    ensures shown { IfSome result IsShown }
{
    let mut words = WordReader::of(line);
    let word = words.word()?;
    let head = head_of(word)?;
    entry_after(&mut words, head)
}

fn is_same(printed: &[u8], line: &[u8]) -> bool
    ensures { result ≡ bytes_eq printed.now line.now }
{
    printed == line
}

impl Entry {
    // Whether this text, with a line feed after it, is the line of the entry.
    fn has_line(&self, line: &str) -> bool
        ensures { IsTrue result ↔ IsLineOf line.now self.now }
    {
        let mut text = LineText::new();
        self.line(&mut text);
        match text.as_str().as_bytes() {
            [front @ .., b'\n'] => is_same(front, line.as_bytes()),
            _ => false,
        }
    }

    /// The entry that has this line, which is given without its line feed. None exactly where no
    /// entry has it: each number is decimal without leading zeros, digits of bytes are in lower
    /// case, one space is between two words, and none is before the first or after the last. An
    /// idle landing is read with the zero mask, since lines show no mask; an answer is `Silent` or
    /// meets the condition of `reply`.
    pub fn parse(line: &str) -> Option<Entry>
        ensures { (entry : Entry) →
            result ≡ Some entry ↔ (IsPrintable entry × IsLineOf line.now entry) }
    {
        let entry = candidate(line)?;
        entry.invariant();
        if entry.has_line(line) {
            Some(entry)
        } else {
            None
        }
    }
}
