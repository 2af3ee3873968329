//! A writer of std as a sink.
ghost use Rattle.std.specs.Prelude.{◌≡◌, ◌≢◌, ◌<◌, ◌≤◌, ◌+◌, [], length, take, true, false, IsErr, IfOk, IfErr, OnOk, OnErr};
ghost use Rattle.std.specs.IoError.{error_kind};
ghost use Rattle.std.specs.Io.Buffered.{writer_buffer, writer_contents};
ghost use Rattle.std.specs.Io.KnownBytes.{Appends, Keeps};
ghost use Rattle.hmc_outside.specs.Answered.{HasAnswered};
ghost use Rattle.hmc_outside.specs.Counts.{opened};
ghost use Rattle.hmc_outside.specs.Finish.{Finishes};
ghost use Rattle.hmc_outside.specs.Pieces.{pieces_of, with_pieces, WritesPrefix};
ghost use Rattle.hmc_outside.specs.Prefix.{AppendsPrefix};
ghost use Rattle.hmc_outside.specs.Raised.{raised};
ghost use Rattle.hmc_outside.specs.StdSink.{writer_of, gathered_bytes, contents_of, view_with, view_of};

use crate::counts::CallCounts;
use crate::{Failed, Sink};
use hmc_codes::{Gathered, Line, Memory};
use std::alloc::Global;
use std::io;
use std::io::{BufWriter, ErrorKind, Write};

/// How many bytes of lines are gathered, and room for one more line is left.
const GATHERED: usize = 6_144;

/// How many bytes are held before they are handed on to the writer.
const HELD: usize = 65_536;

/// What goes to a writer. Lines are made one after another in a text, which is then copied as a
/// whole to the bytes held. These are handed on when there are many, or by `finish`. It shows no
/// pieces. It shows its bytes where the writer does: those are the writer's, and then the ones
/// gathered.
pub struct StdSink<W: Write + Drop> {
    text: Box<Gathered>,
    // How many bytes of the text are held or handed on already: more than none only after a call
    // failed.
    sent: usize,
    writer: BufWriter<W>,
    counts: CallCounts,
}

impl<W: Write + Drop> StdSink<W> {
    /// A sink before its first call. The memory for what it gathers is reserved here: its calls
    /// take none.
    pub fn new(alloc: Global, writer: W) -> Result<Self, Memory>
        ensures writer { IfOk result (λ sink. writer_of sink ≡ writer) }
        ensures none_gathered { IfOk result (λ sink. gathered_bytes sink ≡ []) }
        ensures counts { IfOk result (λ sink.
            view_of W.contents sink ≡ view_with (contents_of W.contents sink) opened) }
    {
        let text = match Box::new(alloc, Gathered::new()) {
            Ok(text) => text,
            Err(_) => return Err(Memory),
        };
        match BufWriter::with_capacity(alloc, HELD, writer) {
            Ok(writer) => Ok(StdSink {
                text,
                sent: 0,
                writer,
                counts: CallCounts::new(),
            }),
            Err(_) => Err(Memory),
        }
    }

    /// How many calls have failed.
    pub fn faults(&self) -> u64
        ensures { result ≡ (view_of W.contents self.now).faults }
    {
        self.counts.faults
    }
}

impl<W: Write + Drop> StdSink<W> {
    // Moves the text to the bytes held.
    #[inline(never)]
    fn hold_text(&mut self) -> Result<(), Failed>
        ensures kept { Keeps (contents_of W.contents self.old) (contents_of W.contents self.new) }
        ensures none { OnOk result (self.new.text.value.bytes ≡ []) }
        ensures all { OnOk result (self.new.sent ≡ 0) }
        ensures counts { self.new.counts ≡ self.old.counts }
    {
        'pieces: while self.sent < self.text.len() {
            let rest = &self.text.as_str().as_bytes()[self.sent..];
            self.sent += write_piece(&mut self.writer, rest)?;
        }
        self.text.clear();
        self.sent = 0;
        Ok(())
    }

    // Makes room in the text for a line.
    #[inline(always)]
    fn make_room(&mut self) -> Result<(), Failed>
        ensures kept { Keeps (contents_of W.contents self.old) (contents_of W.contents self.new) }
        ensures room { OnOk result (length self.new.text.value.bytes + 2048 ≤ 8192) }
        ensures all { OnOk result (self.new.sent ≡ 0) }
        ensures counts { self.new.counts ≡ self.old.counts }
    {
        if self.sent == 0 && self.text.len() <= GATHERED {
            return Ok(());
        }
        self.hold_text()
    }

    // Makes a line in the room for it.
    #[inline(always)]
    fn add_line<L: Line>(&mut self, line: &L)
        requires room { length self.old.text.value.bytes + 2048 ≤ 8192 }
        requires all { self.old.sent ≡ 0 }
        ensures appended { Appends
            (contents_of W.contents self.old) (contents_of W.contents self.new) (L.text line.now) }
        ensures counts { self.new.counts ≡ self.old.counts }
    {
        line.put(&mut *self.text);
    }

    // Makes room for a line, and the line in it.
    #[inline(always)]
    fn gather<L: Line>(&mut self, line: &L) -> Result<(), Failed>
        ensures appended { OnOk result (Appends
            (contents_of W.contents self.old) (contents_of W.contents self.new) (L.text line.now)) }
        ensures prefix { OnErr result (AppendsPrefix
            (contents_of W.contents self.old) (contents_of W.contents self.new) (L.text line.now)) }
        ensures counts { self.new.counts ≡ self.old.counts }
    {
        self.make_room()?;
        self.add_line(line);
        Ok(())
    }

    // Holds these bytes after the text.
    fn hold(&mut self, bytes: &[u8]) -> Result<(), Failed>
        ensures appended { OnOk result (Appends
            (contents_of W.contents self.old) (contents_of W.contents self.new) bytes.now) }
        ensures prefix { OnErr result (AppendsPrefix
            (contents_of W.contents self.old) (contents_of W.contents self.new) bytes.now) }
        ensures counts { self.new.counts ≡ self.old.counts }
    {
        self.hold_text()?;
        write_whole(&mut self.writer, bytes)
    }

    // Hands on all bytes.
    fn hand_on(&mut self) -> Result<(), Failed>
        ensures kept { Keeps (contents_of W.contents self.old) (contents_of W.contents self.new) }
        ensures none { OnOk result (gathered_bytes self.new ≡ []) }
        ensures counts { self.new.counts ≡ self.old.counts }
    {
        self.hold_text()?;
        match flush(&mut self.writer) {
            Ok(()) => Ok(()),
            Err(_) => Err(Failed),
        }
    }
}

impl<W: Write + Drop> Sink for StdSink<W> {
    ghost shows = { view_of W.contents };

    fn write(&mut self, bytes: &[u8]) -> Result<(), Failed>
        // As at each sink.
        ensures counted { (view_of W.contents self.new).writes ≡
            raised (view_of W.contents self.old).writes }
        ensures piece { OnOk result
            ((view_of W.contents self.new).pieces ≡
            with_pieces (view_of W.contents self.old).pieces (pieces_of bytes.now)) }
        ensures appended { OnOk result (Appends
            (view_of W.contents self.old).bytes (view_of W.contents self.new).bytes bytes.now) }
        ensures prefix { OnErr result
            (WritesPrefix (view_of W.contents self.old) (view_of W.contents self.new) bytes.now) }
        ensures sound { OnOk result
            ((view_of W.contents self.new).faults ≡ (view_of W.contents self.old).faults) }
        ensures fault { OnErr result
            ((view_of W.contents self.new).faults ≡ raised (view_of W.contents self.old).faults) }
        ensures not_failed { OnOk result ((view_of W.contents self.new).failed ≡ false) }
        ensures failed { OnErr result ((view_of W.contents self.new).failed ≡ true) }
        ensures finishes { (view_of W.contents self.new).finishes ≡
            (view_of W.contents self.old).finishes }
        ensures not_finished { (view_of W.contents self.new).finished ≡ false }
    {
        let written = self.hold(bytes);
        self.counts.count_write(written.is_err());
        written
    }

    #[inline(always)]
    fn write_line<L: Line>(&mut self, line: &L) -> Result<(), Failed> {
        let made = self.gather(line);
        self.counts.count_write(made.is_err());
        made
    }

    fn finish(&mut self) -> Result<(), Failed>
        // As at each sink.
        ensures finished { Finishes (view_of W.contents self.old) (view_of W.contents self.new) }
        ensures sound { OnOk result
            ((view_of W.contents self.new).faults ≡ (view_of W.contents self.old).faults) }
        ensures fault { OnErr result
            ((view_of W.contents self.new).faults ≡ raised (view_of W.contents self.old).faults) }
        ensures not_failed { OnOk result ((view_of W.contents self.new).failed ≡ false) }
        ensures failed { OnErr result ((view_of W.contents self.new).failed ≡ true) }

        // All bytes are the writer's.
        ensures none_gathered { OnOk result (gathered_bytes self.new ≡ []) }
    {
        let handed = self.hand_on();
        self.counts.count_finish(handed.is_err());
        handed
    }
}

/// What was gathered and not handed on is dropped: a sink that isn't finished, or that failed,
/// hands on nothing more.
impl<W: Write + Drop> Drop for StdSink<W> {
    fn drop(self) {
        let StdSink {
            text: _,
            sent: _,
            writer,
            counts: _,
        } = self;
        let _ = writer.into_parts();
    }
}

// Hands on all that was gathered, and tries again where a signal interrupts: its error is never an
// interruption.
fn flush<W: Write + Drop>(writer: &mut BufWriter<W>) -> io::Result<()>
    ensures kept { Keeps
        (writer_contents W.contents writer.old) (writer_contents W.contents writer.new) }
    ensures none_gathered { OnOk result (writer_buffer writer.new ≡ []) }
    ensures tried { IfErr result (λ e. error_kind e ≢ ErrorKind.Interrupted) }
{
    let mut answered = false;
    'tries: for _ in 0..u64::MAX {
        match ask_flush(writer, &mut answered) {
            Ok(()) => return Ok(()),
            Err(error) if error.kind() == ErrorKind::Interrupted => {}
            Err(error) => return Err(error),
        }
    }
    Err(io::Error::from(ErrorKind::TimedOut))
}

// One flush. A writer that has answered is not asked again.
fn ask_flush<W: Write + Drop>(writer: &mut BufWriter<W>, answered: &mut bool) -> io::Result<()>
    requires { answered.old ≡ false }
    ensures kept { Keeps
        (writer_contents W.contents writer.old) (writer_contents W.contents writer.new) }
    ensures none_gathered { OnOk result (writer_buffer writer.new ≡ []) }
    ensures answered { HasAnswered
        (λ e. error_kind e ≡ ErrorKind.Interrupted) result answered.new }
{
    let flushed = writer.flush();
    *answered = is_answer(&flushed);
    flushed
}

// Writes the pieces that the writer takes, one after the other.
fn write_whole<W: Write>(writer: &mut W, bytes: &[u8]) -> Result<(), Failed>
    ensures appended { OnOk result
        (Appends (W.contents writer.old) (W.contents writer.new) bytes.now) }
    ensures prefix { OnErr result
        (AppendsPrefix (W.contents writer.old) (W.contents writer.new) bytes.now) }
{
    let mut sent = 0;
    'pieces: while sent < bytes.len() {
        sent += write_piece(writer, &bytes[sent..])?;
    }
    Ok(())
}

// One write of a piece.
fn write_piece<W: Write>(writer: &mut W, piece: &[u8]) -> Result<usize, Failed>
    ensures some { IfOk result (λ n. 0 < n) }
    ensures within { IfOk result (λ n. n ≤ length piece.now) }
    ensures appended { IfOk result
        (λ n. Appends (W.contents writer.old) (W.contents writer.new) (take n piece.now)) }
    ensures unchanged { OnErr result (Keeps (W.contents writer.old) (W.contents writer.new)) }
{
    match write_some(writer, piece) {
        Ok(taken) => Ok(taken),
        Err(_) => Err(Failed),
    }
}

// One write, tried again where a signal interrupts it: its error is never an interruption. A writer
// that takes nothing would do so forever: it fails.
fn write_some<W: Write>(writer: &mut W, piece: &[u8]) -> io::Result<usize>
    ensures some { IfOk result (λ n. 0 < n) }
    ensures within { IfOk result (λ n. n ≤ length piece.now) }
    ensures appended { IfOk result
        (λ n. Appends (W.contents writer.old) (W.contents writer.new) (take n piece.now)) }
    ensures unchanged { OnErr result (Keeps (W.contents writer.old) (W.contents writer.new)) }
    ensures tried { IfErr result (λ e. error_kind e ≢ ErrorKind.Interrupted) }
{
    let mut answered = false;
    'tries: for _ in 0..u64::MAX {
        match ask_write(writer, piece, &mut answered) {
            Ok(taken) => return Ok(taken),
            Err(e) if e.kind() == ErrorKind::Interrupted => {}
            Err(e) => return Err(e),
        }
    }
    Err(io::Error::from(ErrorKind::TimedOut))
}

// One write. A writer that has answered is not asked again.
fn ask_write<W: Write>(writer: &mut W, piece: &[u8], answered: &mut bool) -> io::Result<usize>
    requires { answered.old ≡ false }
    ensures some { IfOk result (λ n. 0 < n) }
    ensures within { IfOk result (λ n. n ≤ length piece.now) }
    ensures appended { IfOk result
        (λ n. Appends (W.contents writer.old) (W.contents writer.new) (take n piece.now)) }
    ensures unchanged { OnErr result (Keeps (W.contents writer.old) (W.contents writer.new)) }
    ensures answered { HasAnswered
        (λ e. error_kind e ≡ ErrorKind.Interrupted) result answered.new }
{
    let written = match writer.write(piece) {
        Ok(taken) => some_taken(taken),
        Err(e) => Err(e),
    };
    *answered = is_answer(&written);
    written
}

// How many bytes a writer took, where it took any: no bytes are an error.
fn some_taken(taken: usize) -> io::Result<usize>
    ensures some { 0 < taken → result ≡ Ok taken }
    ensures nothing { taken ≡ 0 → IsErr result }
    ensures kind { IfErr result (λ e. error_kind e ≡ ErrorKind.WriteZero) }
{
    if taken == 0 {
        return Err(io::Error::from(ErrorKind::WriteZero));
    }
    Ok(taken)
}

// Whether this is an answer of a writer: an interruption is none.
fn is_answer<T>(answer: &io::Result<T>) -> bool
    ensures { HasAnswered (λ e. error_kind e ≡ ErrorKind.Interrupted) answer.now result }
{
    match answer {
        Ok(_) => true,
        Err(e) => e.kind() != ErrorKind::Interrupted,
    }
}
