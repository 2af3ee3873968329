//! Expected bytes, answers and counts are written out by hand, from what each object was made to
//! do.

use hmc_codes::Memory;
use hmc_outside::{Failed, Sink, Source, StdSink, StdSource};
use std::alloc::Global;
use std::io::{self, ErrorKind, Read, Write};
use std::process::Abort;
use std::test::Fail;

// Gives or takes at most three bytes a call. The calls whose turn is listed meet the error instead;
// a flush is a call too.
#[derive(Drop)]
struct Stuttering<'a> {
    input: &'a [u8],
    output: Vec<u8>,
    turn: u32,
    errors: &'a [(u32, ErrorKind)],
}

impl Stuttering<'_> {
    fn next_turn(&mut self) -> io::Result<()> {
        self.turn = self.turn.saturating_add(1);
        for (turn, kind) in self.errors {
            if *turn == self.turn {
                return Err(io::Error::from(*kind));
            }
        }
        Ok(())
    }
}

impl Read for Stuttering<'_> {
    fn read(&mut self, into: &mut [u8]) -> io::Result<usize> {
        self.next_turn()?;
        let most = into.len().min(3);
        self.input.read(&mut into[..most])
    }
}

impl Write for Stuttering<'_> {
    fn write(&mut self, bytes: &[u8]) -> io::Result<usize> {
        self.next_turn()?;
        let most = bytes.len().min(3);
        self.output.extend_from_slice(&bytes[..most])?;
        Ok(most)
    }

    fn flush(&mut self) -> io::Result<()> {
        self.next_turn()
    }
}

// Whether a read has this outcome and leaves this in its piece.
fn is_read<S: Source>(
    source: &mut S,
    piece: &mut [u8],
    outcome: Result<usize, Failed>,
    held: &str,
) -> bool {
    source.read(piece) == outcome && &*piece == held.as_bytes()
}

// Reads into one piece, once for each row.
fn assert_reads<S: Source>(
    rt: &impl Abort,
    source: &mut S,
    piece: &mut [u8],
    rows: &[(Result<usize, Failed>, &str)],
) {
    for (number, (outcome, held)) in rows.iter().enumerate() {
        assert!(rt; is_read(source, piece, *outcome, held), "read {number}");
    }
}

#[test]
fn a_reader_gives_its_bytes(rt: HostRuntime) {
    let mut source = StdSource::new(b"quick fox".as_slice());
    let rows = [(Ok(6), "quick "), (Ok(3), "foxck "), (Ok(0), "foxck ")];
    assert_reads(&rt, &mut source, &mut [b'.'; 6], &rows);
}

#[test]
fn a_reader_is_asked_again_after_two_signals_and_fails_where_it_would_block(rt: HostRuntime) {
    let mut source = StdSource::new(Stuttering {
        input: b"quick",
        output: Vec::new(rt.alloc()),
        turn: 0,
        errors: &[
            (1, ErrorKind::Interrupted),
            (2, ErrorKind::Interrupted),
            (4, ErrorKind::WouldBlock),
        ],
    });
    let mut piece = [b'.'; 8];
    let rows = [
        (Ok(3), "qui....."),
        (Err(Failed), "qui....."),
        (Ok(2), "cki....."),
    ];
    assert_reads(&rt, &mut source, &mut piece, &rows);
}

// Whether a sink takes all of these bytes.
fn takes<O: Sink>(sink: &mut O, pieces: &[&str]) -> bool {
    for bytes in pieces {
        if sink.write(bytes.as_bytes()).is_err() {
            return false;
        }
    }
    true
}

// Whether a sink is finished with each of these outcomes.
fn finishes<O: Sink>(sink: &mut O, outcomes: &[Result<(), Failed>]) -> bool {
    for outcome in outcomes {
        if sink.finish() != *outcome {
            return false;
        }
    }
    true
}

// The errors of a stuttering writer, what is written to a sink on it, and the outcome of each
// finish after that; what the writer took then, and in how many calls.
struct Handed {
    errors: &'static [(u32, ErrorKind)],
    pieces: &'static [&'static str],
    outcomes: &'static [Result<(), Failed>],
    output: &'static str,
    calls: u32,
}

const HANDED: [Handed; 5] = [
    // The writer takes the bytes when the sink is finished.
    Handed {
        errors: &[],
        pieces: &["quick ", "", "fox"],
        outcomes: &[Ok(())],
        output: "quick fox",
        calls: 4,
    },
    // Bytes that were not handed on are dropped with the sink.
    Handed {
        errors: &[],
        pieces: &["quick ", "fox"],
        outcomes: &[],
        output: "",
        calls: 0,
    },
    // The first finish is asked again after two signals, and fails in its sixth call, where it
    // would block. The second one is asked again when a signal interrupts its flush.
    Handed {
        errors: &[
            (2, ErrorKind::Interrupted),
            (3, ErrorKind::Interrupted),
            (6, ErrorKind::WouldBlock),
            (9, ErrorKind::Interrupted),
        ],
        pieces: &["quick", "brown", "fox"],
        outcomes: &[Err(Failed), Ok(())],
        output: "quickbrownfox",
        calls: 10,
    },
    // A flush that fails is a fault.
    Handed {
        errors: &[(2, ErrorKind::WouldBlock)],
        pieces: &["fox"],
        outcomes: &[Err(Failed)],
        output: "fox",
        calls: 2,
    },
    // A writer that failed is not called again.
    Handed {
        errors: &[(2, ErrorKind::WouldBlock)],
        pieces: &["quick"],
        outcomes: &[Err(Failed)],
        output: "qui",
        calls: 2,
    },
];

fn is_handed_on(alloc: Global, row: &Handed) -> Result<bool, Memory> {
    let mut writer = Stuttering {
        input: b"",
        output: Vec::new(alloc),
        turn: 0,
        errors: row.errors,
    };
    let mut sink = StdSink::new(alloc, &mut writer)?;
    let handed = takes(&mut sink, row.pieces) && finishes(&mut sink, row.outcomes);
    drop(sink);
    Ok(handed && writer.output.as_slice() == row.output.as_bytes() && writer.turn == row.calls)
}

#[test]
fn writers_that_stutter(rt: HostRuntime) -> Result<(), Fail> {
    for (number, row) in HANDED.iter().enumerate() {
        assert!(rt; is_handed_on(rt.alloc(), row)?, "row {number}");
    }
    Ok(())
}

// Five bytes more than are gathered go past the buffer, and so does what is left of them when the
// writer has taken four.
#[test]
fn a_writer_that_takes_nothing_fails(rt: HostRuntime) -> Result<(), Fail> {
    let mut room = [b'.'; 4];
    let mut sink = StdSink::new(rt.alloc(), room.as_mut_slice())?;
    let mut long = Vec::new(rt.alloc());
    long.resize(65_541, b'x')?;
    assert!(rt; sink.write(&long) == Err(Failed), "the write");
    drop(sink);
    assert!(rt; room == *b"xxxx", "what was written");
    Ok(())
}
