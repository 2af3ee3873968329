//! Where output bytes go.
ghost use Rattle.std.specs.Prelude.{◌≡◌, true, false, OnOk, OnErr};
ghost use Rattle.std.specs.Io.KnownBytes.{Appends};
ghost use Rattle.hmc_outside.specs.Finish.{Finishes};
ghost use Rattle.hmc_outside.specs.Pieces.{pieces_of, with_pieces, WritesPrefix};
ghost use Rattle.hmc_outside.specs.Raised.{raised};
ghost use Rattle.hmc_outside.specs.Views.{SinkView};

use crate::Failed;
use hmc_codes::{Gathered, Line};

/// Takes bytes, a piece at a time. It may gather them, and hand them on later.
pub trait Sink {
    /// The pieces and the bytes written, and the counts of calls.
    ghost shows: { Self → SinkView };

    /// Takes all the bytes, or fails and has taken a prefix of them, which may be none or all.
    fn write(&mut self, bytes: &[u8]) -> Result<(), Failed>
        ensures counted { (shows self.new).writes ≡ raised (shows self.old).writes }
        ensures piece { OnOk result
            ((shows self.new).pieces ≡ with_pieces (shows self.old).pieces (pieces_of bytes.now)) }
        ensures appended { OnOk result
            (Appends (shows self.old).bytes (shows self.new).bytes bytes.now) }
        ensures prefix { OnErr result
            (WritesPrefix (shows self.old) (shows self.new) bytes.now) }
        ensures sound { OnOk result ((shows self.new).faults ≡ (shows self.old).faults) }
        ensures fault { OnErr result ((shows self.new).faults ≡ raised (shows self.old).faults) }
        ensures not_failed { OnOk result ((shows self.new).failed ≡ false) }
        ensures failed { OnErr result ((shows self.new).failed ≡ true) }
        ensures finishes { (shows self.new).finishes ≡ (shows self.old).finishes }
        ensures not_finished { (shows self.new).finished ≡ false };

    /// Takes a line, as `write` takes its bytes. A sink may make the line where it gathers.
    fn write_line<L: Line>(&mut self, line: &L) -> Result<(), Failed>
        ensures counted { (shows self.new).writes ≡ raised (shows self.old).writes }
        ensures piece { OnOk result ((shows self.new).pieces ≡
            with_pieces (shows self.old).pieces (pieces_of (L.text line.now))) }
        ensures appended { OnOk result
            (Appends (shows self.old).bytes (shows self.new).bytes (L.text line.now)) }
        ensures prefix { OnErr result
            (WritesPrefix (shows self.old) (shows self.new) (L.text line.now)) }
        ensures sound { OnOk result ((shows self.new).faults ≡ (shows self.old).faults) }
        ensures fault { OnErr result ((shows self.new).faults ≡ raised (shows self.old).faults) }
        ensures not_failed { OnOk result ((shows self.new).failed ≡ false) }
        ensures failed { OnErr result ((shows self.new).failed ≡ true) }
        ensures finishes { (shows self.new).finishes ≡ (shows self.old).finishes }
        ensures not_finished { (shows self.new).finished ≡ false }
    {
        let mut text = Gathered::new();
        line.put(&mut text);
        self.write(text.as_str().as_bytes())
    }

    /// Hands on what was gathered, or fails and has handed on a prefix of it. What was taken stays.
    fn finish(&mut self) -> Result<(), Failed>
        ensures finished { Finishes (shows self.old) (shows self.new) }
        ensures sound { OnOk result ((shows self.new).faults ≡ (shows self.old).faults) }
        ensures fault { OnErr result ((shows self.new).faults ≡ raised (shows self.old).faults) }
        ensures not_failed { OnOk result ((shows self.new).failed ≡ false) }
        ensures failed { OnErr result ((shows self.new).failed ≡ true) };
}
