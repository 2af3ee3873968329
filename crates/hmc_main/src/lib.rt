//! What the program does: the words of the command line, a source, a sink and the two shipped logic
//! units go to `replay`, where the words, the sink and the units can be had.
//!
//! [`words_of`] has the words after the program's name, and [`run_program`] replays by exactly
//! these.
//!
//! `hmc_prog` is the program, which has standard input and output.
#![tactic(auto)]

ghost use Rattle.std.specs.Prelude.{◌≡◌, ◌≢◌, drop, map, string_bytes, is_some, true, false, IsOk, IfOk, IfErr, OnErr, Err};
ghost use Rattle.std.specs.IoError.{error_kind};
ghost use Rattle.std.specs.Vec.Iter.{into_iter_items};
ghost use Rattle.hmc_main.specs.Ends.{Completes, CompletesBy, EndsBy, Ends, IsWithoutSink};
ghost use Rattle.hmc_main.specs.Shipped.{shipped_slots};
ghost use Rattle.hmc_replay.specs.Top.{Replayed};
ghost use Rattle.hmc_replay.specs.Words.{form_of};

use hmc_codes::Memory;
use hmc_outside::{Sink, Source};
use hmc_replay::{is_form, replay};
use hmc_units::{LogicUnit, Reverse, Stamp};
use std::alloc::{AllocError, Global};
use std::env::Args;
use std::io;
use std::io::ErrorKind;

/// The status of `replay` for "out of memory".
const OUT_OF_MEMORY: u8 = 1;

/// The status of `replay` for words that are no defined form.
const USAGE: u8 = 2;

// The status where the words of the command line can't be had. A word that isn't UTF-8 text is in
// no form.
fn status_of(kind: ErrorKind) -> u8
    ensures memory { kind ≡ ErrorKind.OutOfMemory → result ≡ 1 }
    ensures usage { kind ≢ ErrorKind.OutOfMemory → result ≡ 2 }
{
    match kind {
        ErrorKind::OutOfMemory => OUT_OF_MEMORY,
        _ => USAGE,
    }
}

// All words, unless memory runs out.
fn collected(alloc: Global, args: Args) -> Result<Vec<String>, u8>
    ensures words { IfOk result (λ words. words.items ≡ into_iter_items args) }
    ensures memory { IfErr result (λ status. status ≡ 1) }
{
    // This call brings the law of what such an iterator yields, which the clause on words needs.
    let none: Vec<String> = Vec::new(alloc);
    let _ = none.into_iter();
    match args.collect(alloc) {
        Ok(words) => Ok(words),
        Err(_) => Err(OUT_OF_MEMORY),
    }
}

// All words except the first one, which is the program's name.
fn without_name(words: Vec<String>) -> Vec<String>
    ensures { result.items ≡ drop 1 words.items }
{
    let mut words = words;
    if !words.is_empty() {
        let _ = words.remove(0);
    }
    words
}

// The words after the program's name.
fn words_after_name(alloc: Global, args: Args) -> Result<Vec<String>, u8>
    ensures words { IfOk result (λ words. words.items ≡ drop 1 (into_iter_items args)) }
    ensures memory { IfErr result (λ status. status ≡ 1) }
{
    match collected(alloc, args) {
        Ok(words) => Ok(without_name(words)),
        Err(status) => Err(status),
    }
}

/// The words of the command line after the program's name; else the status to end with: 1 out of
/// memory, and 2 where a word isn't UTF-8 text.
pub fn words_of(alloc: Global, args: io::Result<Args>) -> Result<Vec<String>, u8>
    ensures words { IfOk args (λ args.
        IfOk result (λ words. words.items ≡ drop 1 (into_iter_items args))) }
    ensures memory { IfOk args (λ _. IfErr result (λ status. status ≡ 1)) }
    ensures no_memory { IfErr args (λ e.
        error_kind e ≡ ErrorKind.OutOfMemory → result ≡ Err 1) }
    ensures no_text { IfErr args (λ e.
        error_kind e ≢ ErrorKind.OutOfMemory → result ≡ Err 2) }
{
    match args {
        Ok(args) => words_after_name(alloc, args),
        Err(error) => Err(status_of(error.kind())),
    }
}

// Replays with the shipped units. An error if there is no memory for them: then nothing was read or
// written.
fn replay_shipped<S: Source, O: Sink>(
    alloc: Global,
    words: &[String],
    source: &mut S,
    sink: &mut O,
) -> Result<u8, AllocError>
    ensures replayed { IfOk result (λ status. Replayed S.shows O.shows
        (map string_bytes words.now) shipped_slots
        source.old source.new sink.old sink.new status) }
    ensures complete { IfOk result (λ status.
        Completes (map string_bytes words.now) (S.shows source.old).left status) }
    ensures source { OnErr result (source.new ≡ source.old) }
    ensures sink { OnErr result (sink.new ≡ sink.old) }
{
    let mut units: Vec<Box<dyn LogicUnit>> = Vec::new(alloc);
    units.push(Box::new(alloc, Reverse::new(0, 0))?)?;
    units.push(Box::new(alloc, Stamp::new(0, 1))?)?;
    Ok(replay(alloc, words, source, sink, units))
}

// The status where there is no memory for the units.
fn without_units(words: &[String]) -> u8
    ensures form { is_some (form_of (map string_bytes words.now)) ≡ true → result ≡ 1 }
    ensures usage { is_some (form_of (map string_bytes words.now)) ≡ false → result ≡ 2 }
{
    if is_form(words) { OUT_OF_MEMORY } else { USAGE }
}

// Replays by these words.
fn replay_words<S: Source, O: Sink>(
    alloc: Global,
    words: &[String],
    source: &mut S,
    sink: &mut O,
) -> u8
    ensures ended { Ends S.shows O.shows (map string_bytes words.now)
        source.old source.new sink.old sink.new result }
    ensures complete { Completes (map string_bytes words.now) (S.shows source.old).left result }
{
    match replay_shipped(alloc, words, source, sink) {
        Ok(status) => status,
        Err(_) => without_units(words),
    }
}

// Replays by these words, where they could be had.
fn end<S: Source, O: Sink>(
    alloc: Global,
    words: Result<Vec<String>, u8>,
    source: &mut S,
    sink: &mut O,
) -> u8
    ensures ended { EndsBy (λ words. map string_bytes words.items) words S.shows O.shows
        source.old source.new sink.old sink.new result }
    ensures complete { CompletesBy (λ words. map string_bytes words.items) words
        (S.shows source.old).left result }
{
    match words {
        Ok(words) => replay_words(alloc, &words, source, sink),
        Err(status) => status,
    }
}

/// Replays by exactly these words, and returns the status to end with. Where the words could not be
/// had it is the one that stands in their place, and nothing is read or written. `sink` is what
/// making the sink gave: out of memory is 1, before the words are looked at or anything is read.
pub fn run_program<S: Source, O: Sink + Drop>(
    alloc: Global,
    words: Result<Vec<String>, u8>,
    source: &mut S,
    sink: Result<O, Memory>,
) -> u8
    ensures ended { IfOk sink (λ sink. (sink' : O) ×
        EndsBy (λ words. map string_bytes words.items) words S.shows O.shows
        source.old source.new sink sink' result) }
    ensures complete { IfOk sink (λ _. CompletesBy (λ words. map string_bytes words.items) words
        (S.shows source.old).left result) }
    ensures without_sink { IfErr sink (λ _. IsWithoutSink source.old source.new result) }
{
    match sink {
        Ok(mut sink) => end(alloc, words, source, &mut sink),
        Err(_) => OUT_OF_MEMORY,
    }
}
