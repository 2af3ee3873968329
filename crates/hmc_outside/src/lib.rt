//! The edge of the program: where input bytes come from and where output bytes go.
//!
//! A [`Source`] gives bytes and a [`Sink`] takes them. Either may fail at any call, and counts its
//! faults: a caller that reports a fault shows that the count rose in its own calls. A source also
//! counts the reads that found the end of the input or failed. A sink may gather bytes, and
//! `finish` hands them on. It counts its writes and its finishes, and knows what the last call was
//! and whether that failed. So "nothing is read after the end", "nothing is called after a fault"
//! and "finished once, after the last write" can be clauses. A source may show the bytes still to
//! come and a sink the pieces written so far; the clauses then say exactly how a call changes them.
//!
//! - [`MemorySource`] and [`MemorySink`] hold their bytes in memory and fail at listed calls. They
//!   show all, and the answer and the effect of each call follow from what they were made of.
//! - [`StdSource`] and [`StdSink`] have a reader and a writer of std, which for standard input and
//!   output show no bytes. [`StdSink`] gathers, so that not each line is a call of the system.
//!
//! A layer above is generic, `S: Source` and `O: Sink`, takes `&mut S` and `&mut O`, and rests on
//! the traits' clauses alone. specs/Lines has words for lines that are each written by one write,
//! specs/Finish for such lines and a finish after them, and proofs/LinesLemmas what several such
//! writings in a row come to.
//!
//! Trusted: that std's readers and writers do what their contracts say. No clause says when a
//! reader or a writer of std fails, so only tests show that [`StdSource`] and [`StdSink`] fail no
//! more often than those do, and ask again after a signal.
#![tactic(auto)]

mod counts;
mod memory_sink;
mod memory_source;
mod pieces;
mod sink;
mod source;
mod std_sink;
mod std_source;

pub use counts::Failed;
pub use memory_sink::MemorySink;
pub use memory_source::MemorySource;
pub use sink::Sink;
pub use source::Source;
pub use std_sink::StdSink;
pub use std_source::StdSource;
