//! A taped session takes laid steps up to an entry of a chosen kind.

ghost use Rattle.std.specs.Prelude.{◌≡◌, List};
ghost use Rattle.hmc_entries.specs.declared.entry.Entry.{Entry};
ghost use Rattle.hmc_journal.specs.Setup.{Setup};
ghost use Rattle.hmc_tape.specs.Calls.{TapesRun};
ghost use Rattle.hmc_tape.specs.Tries.{TapesTry};
ghost use Rattle.hmc_tape.specs.Tape.{taped_of, IsTapeOf};

use crate::{NotTaped, Taped};
use hmc_codes::Memory;
use hmc_session::{Laid, NotTaken, Ran, Stops};
use hmc_units::Workbench;

impl<B: Workbench> Taped<B> {
    /// Takes laid steps up to an entry of a chosen kind, and tries at most so many, as `run` of a
    /// session does; those that it takes are on the tape. `Memory` if the tape is out of memory:
    /// the steps before were taken, and the one that it has no room for is the next of the list.
    pub fn run(&mut self, laid: &mut Laid, most: u32, stops: &Stops) -> Result<Ran, Memory>
        ensures tape { (setup : Setup) (past : List Entry) →
            IsTapeOf (taped_of B.slots self.old) setup past →
            TapesRun result (taped_of B.slots self.new) setup past laid.old laid.new
            stops.now most }
        ensures finished { self.new.session.finished ≡ self.old.session.finished }
        ensures plan { self.new.session.plan ≡ self.old.session.plan }
    {
        'steps: for at in 0..most {
            match self.try_next(laid, stops) {
                Ok(None) => {}
                Ok(Some(ran)) => return Ok(ran),
                Err(memory) => return Err(memory),
            }
        }
        Ok(Ran::Tried)
    }

    // Takes the next laid step, unless it waits. `Some` where a run ends with it.
    fn try_next(&mut self, laid: &mut Laid, stops: &Stops) -> Result<Option<Ran>, Memory>
        ensures tries { (setup : Setup) (past : List Entry) →
            IsTapeOf (taped_of B.slots self.old) setup past →
            TapesTry result (taped_of B.slots self.new) setup past laid.old laid.new stops.now }
        ensures finished { self.new.session.finished ≡ self.old.session.finished }
        ensures plan { self.new.session.plan ≡ self.old.session.plan }
    {
        match self.next(laid) {
            Ok(Some(_)) => Ok(self.session().stopped(stops)),
            Ok(None) => Ok(Some(Ran::Ended)),
            Err(NotTaped::Refused(NotTaken::Waits)) => Ok(None),
            Err(NotTaped::Refused(NotTaken::Unknown)) => Ok(Some(Ran::Unknown)),
            Err(NotTaped::Refused(NotTaken::Over)) => Ok(Some(Ran::Over)),
            Err(NotTaped::Memory) => Err(Memory),
        }
    }
}
