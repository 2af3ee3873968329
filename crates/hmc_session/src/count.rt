//! How many steps a session took.

ghost use Rattle.std.specs.Prelude.{◌≡◌, ◌<◌, ◌+◌, ◌-◌, ◌||◌, false, true, nat_le};
ghost use Rattle.hmc_codes.specs.Limits.{most_taken};
ghost use Rattle.hmc_entries.specs.Event.{is_passed};
ghost use Rattle.hmc_entries.specs.declared.entry.Entry.{Entry};
ghost use Rattle.hmc_net.specs.Went.{went_of};

use hmc_codes::MOST_TAKEN;
use hmc_net::Went;
use std::marker::Model;

// One more than the steps that a session may take.
const TOP: u64 = MOST_TAKEN as u64 + 1;

/// How many steps were taken, and whether a landing passed. What is kept is one more than may
/// follow, so that a step is counted and the last one told by one subtraction.
#[derive(Drop)]
pub struct StepCount {
    // One more than all that may be taken.
    top: u64,
    // One more than those that may follow.
    left: u64,
    passed: bool,
}

impl Model for StepCount {
    ghost use Rattle.std.specs.Prelude.{◌-◌};
    ghost use Rattle.hmc_session.specs.Count.{CountFields, IsCount};

    ghost Value = { CountFields };

    ghost view = { λ c. record {
      taken = c.top - c.left;
      passed = c.passed;
    } };

    ghost invariant = { λ c. IsCount c.top c.left c.passed };
}

// Whether a step is a landing that passed.
#[inline(always)]
fn has_passed(went: Went) -> bool
    ensures { (entry : Entry) → went ≡ went_of entry → result ≡ is_passed entry }
{
    matches!(went, Went::Passed)
}

// Takes back a step that was counted where none may follow. It is a call, so that a step that may
// be taken is counted in place.
#[inline(never)]
fn take_back_last(left: &mut u64)
    ensures { left.new ≡ 1 }
{
    *left = 1;
}

impl StepCount {
    /// No step was taken.
    pub fn new() -> Self
        ensures { result ≡ record { taken = 0; passed = false } }
    {
        StepCount {
            top: TOP,
            left: TOP,
            passed: false,
        }
    }

    /// The number of steps that were taken.
    pub fn taken(&self) -> u32
        ensures { result ≡ self.now.taken }
    {
        (self.top - self.left) as u32
    }

    /// Whether a landing passed.
    pub fn has_passed(&self) -> bool
        ensures { result ≡ self.now.passed }
    {
        self.passed
    }

    /// Whether no step may follow: a landing passed, or `MOST_TAKEN` steps were taken.
    #[inline(always)]
    pub fn is_over(&self) -> bool
        ensures { result ≡ (self.now.passed || nat_le most_taken self.now.taken) }
    {
        self.left == 1
    }

    /// Counts a step more, where one may follow.
    #[inline(always)]
    pub fn add(&mut self)
        requires { (self.old.passed || nat_le most_taken self.old.taken) ≡ false }
        ensures taken { self.new.taken ≡ self.old.taken + 1 }
        ensures passed { self.new.passed ≡ self.old.passed }
    {
        self.left -= 1;
    }

    /// Counts a step more, unless none may follow, and returns whether none may. Then nothing
    /// changes.
    #[inline(always)]
    pub fn add_unless_over(&mut self) -> bool
        ensures over { result ≡ (self.old.passed || nat_le most_taken self.old.taken) }
        ensures taken { result ≡ false → self.new.taken ≡ self.old.taken + 1 }
        ensures passed { self.new.passed ≡ self.old.passed }
        ensures same { result ≡ true → self.new ≡ self.old }
    {
        let left = self.left - 1;
        self.left = left;
        if left == 0 {
            take_back_last(&mut self.left);
            return true;
        }
        false
    }

    /// Takes the latest step off the count, where one was counted and no landing passed. It is out
    /// of the way of steps that are taken.
    #[inline(never)]
    pub fn take_back(&mut self)
        requires some { 0 < self.old.taken }
        requires on { self.old.passed ≡ false }
        ensures taken { self.new.taken ≡ self.old.taken - 1 }
        ensures passed { self.new.passed ≡ false }
    {
        self.left += 1;
    }

    /// Notes how the step went that was counted last.
    #[inline(always)]
    pub fn note(&mut self, went: Went)
        requires { self.old.passed ≡ false }
        ensures taken { self.new.taken ≡ self.old.taken }
        ensures passed { (entry : Entry) → went ≡ went_of entry →
            self.new.passed ≡ is_passed entry }
    {
        if has_passed(went) {
            self.end();
        }
    }

    // A landing passed.
    #[inline(never)]
    fn end(&mut self)
        ensures taken { self.new.taken ≡ self.old.taken }
        ensures passed { self.new.passed ≡ true }
    {
        self.top -= self.left - 1;
        self.left = 1;
        self.passed = true;
    }
}
