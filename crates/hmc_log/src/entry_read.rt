//! What the line of an entry states by itself.
//!
//! The host, the tag and the slot are read word by word. The request or the answer is that of the
//! entry whose line it is: nothing but lines of a report is taken.

ghost use Rattle.std.specs.Prelude.{ℕ, List, ◌≡◌, ◌∷◌, ◌≤◌, ◌<◌, IfOk, IfSome, codes};
ghost use Rattle.hmc_codes.specs.Limits.{most_hosts, tags};
ghost use Rattle.hmc_text.specs.Words.{words_of};
ghost use Rattle.hmc_text.specs.Reading.{Gives};
ghost use Rattle.hmc_entries.specs.ParseEntry.{gave_in, took_in, retired_in};
ghost use Rattle.hmc_log.specs.Lines.{written};
ghost use Rattle.hmc_log.specs.Meaning.{is_due, given_as, given_of, given_by_entry, taken_of, taken_by_entry, slot_of};

use crate::LogKind;
use crate::answers::takes_tag;
use crate::given::{Given, Taken};
use crate::words::{number_word, small_word, tag_word, wrong};
use hmc_codes::{Request, TAGS};
use hmc_entries::Entry;
use hmc_text::reading::no_word;

/// The slots of logic units.
const SLOTS: u8 = 8;

// The entry whose line this is.
fn entry_of(text: &str) -> Option<Entry>
    ensures gave { (words : List (List ℕ)) → words_of text.now ≡ codes "gave" ∷ words →
        result ≡ written text.now (gave_in words) }
    ensures took { (words : List (List ℕ)) → words_of text.now ≡ codes "took" ∷ words →
        result ≡ written text.now (took_in words) }
    ensures retired { (words : List (List ℕ)) → words_of text.now ≡ codes "retired" ∷ words →
        result ≡ written text.now (retired_in words) }
{
    Entry::parse(text)
}

// Whether a tag is there exactly where the request takes one.
fn is_due(tag: Option<u16>, takes: bool) -> bool
    ensures { result ≡ is_due tag takes }
{
    match tag {
        Some(_) => takes,
        None => !takes,
    }
}

// The request of a host under this tag, or without one.
fn given_as(
    cubes: u8,
    host: u8,
    tag: Option<u16>,
    poisoned: bool,
    request: &Request,
) -> Result<Given, LogKind>
    ensures value { result ≡ given_as cubes host tag poisoned request.now }
    ensures host { IfOk result (λ given. given.host ≡ host) }
    ensures tag { IfOk result (λ given. given.tag ≡ tag) }
{
    if request.cube >= cubes {
        return Err(LogKind::Request);
    }
    if !is_due(tag, takes_tag(poisoned, request.command)) {
        return Err(LogKind::Tag);
    }
    Ok(Given {
        host,
        tag,
        poisoned,
        request: *request,
    })
}

// The request that the entry gives; it can't be read if it is no entry of a request.
fn given_by_entry(
    cubes: u8,
    host: u8,
    tag: Option<u16>,
    rest: &[u8],
    entry: &Option<Entry>,
) -> Result<Given, LogKind>
    ensures value { result ≡ given_by_entry cubes host tag (words_of rest.now) entry.now }
    ensures host { IfOk result (λ given. given.host ≡ host) }
    ensures tag { IfOk result (λ given. given.tag ≡ tag) }
{
    match entry {
        Some(
            Entry::Gave {
                poisoned,
                request,
                ..
            },
        ) => given_as(cubes, host, tag, *poisoned, request),
        _ => Err(wrong(LogKind::Request, 3, 5, rest)),
    }
}

/// A host, a tag or a dash, and a request. `rest` is what comes after the first word.
#[tactic(auto, unfolding(crate::specs::Meaning::given_of))]
pub fn given_of(hosts: u8, cubes: u8, text: &str, rest: &[u8]) -> Result<Given, LogKind>
    requires first { words_of text.now ≡ codes "gave" ∷ words_of rest.now }
    ensures value { result ≡ given_of hosts cubes text.now (words_of rest.now) }
    ensures host { IfOk result (λ given. given.host < hosts) }
    ensures tag { IfOk result (λ given. IfSome given.tag (λ t. t < tags)) }
{
    let (host, after) = small_word(LogKind::Host, hosts, rest)?;
    let (tag, after) = tag_word(after)?;
    given_by_entry(cubes, host, tag, after, &entry_of(text))
}

// The answer that the entry takes; it can't be read if it is no entry of an answer.
fn taken_by_entry(host: u8, tag: u16, rest: &[u8], entry: &Option<Entry>) -> Result<Taken, LogKind>
    ensures value { result ≡ taken_by_entry host tag (words_of rest.now) entry.now }
    ensures host { IfOk result (λ taken. taken.host ≡ host) }
    ensures tag { IfOk result (λ taken. taken.tag ≡ tag) }
{
    match entry {
        Some(Entry::Took { answer, .. }) => Ok(Taken {
            host,
            tag,
            answer: *answer,
        }),
        _ => Err(wrong(LogKind::Answer, 1, 3, rest)),
    }
}

/// A host, a tag and an answer. `rest` is what comes after the first word.
#[tactic(auto, unfolding(crate::specs::Meaning::taken_of))]
pub fn taken_of(hosts: u8, text: &str, rest: &[u8]) -> Result<Taken, LogKind>
    requires first { words_of text.now ≡ codes "took" ∷ words_of rest.now }
    ensures value { result ≡ taken_of hosts text.now (words_of rest.now) }
    ensures host { IfOk result (λ taken. taken.host < hosts) }
    ensures tag { IfOk result (λ taken. taken.tag < tags) }
{
    let (host, after) = small_word(LogKind::Host, hosts, rest)?;
    let (tag, after) = number_word(LogKind::Tag, u64::from(TAGS), after)?;
    taken_by_entry(host, tag as u16, after, &entry_of(text))
}

/// The slot of a logic unit. `rest` is what comes after the first word.
#[tactic(auto, unfolding(crate::specs::Meaning::slot_of))]
pub fn slot_of(text: &str, rest: &[u8]) -> Result<u8, LogKind>
    requires first { words_of text.now ≡ codes "retired" ∷ words_of rest.now }
    ensures value { result ≡ slot_of text.now (words_of rest.now) }
    ensures small { IfOk result (λ slot. slot < 8) }
{
    let (slot, after) = small_word(LogKind::Slot, SLOTS, rest)?;
    no_word(LogKind::Words, after)?;
    match entry_of(text) {
        Some(_) => Ok(slot),
        None => Err(LogKind::Slot),
    }
}
