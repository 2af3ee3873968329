//! Laws of traces. Each is the contract of a function that does nothing.

ghost use Rattle.std.specs.Prelude.{◌≡◌, ℕ, List, Option, Ok};
ghost use Rattle.hmc_units.specs.Unit.{UnitFields};
ghost use Rattle.hmc_accesses.specs.Compiled.{compiled_of};
ghost use Rattle.hmc_accesses.specs.Laws.{IsPerformed, ValuesAreLoaded, AllAreLoaded};
ghost use Rattle.hmc_accesses.specs.Text.{trace_of};
ghost use Rattle.hmc_accesses.specs.Trace.{Trace, IsTrace};

/// A plain machine that performs the script of a trace has the bytes that the trace leaves, and its
/// answers give the values of the loads.
pub fn compiled_is_performed()
    ensures { (trace : Trace) (slots : List (Option UnitFields)) → IsTrace trace →
        IsPerformed (compiled_of trace) trace slots }
{}

/// The value that a lawful journal of the script gives for a load is the trace's.
pub fn values_are_loaded()
    ensures { ValuesAreLoaded }
{}

/// Once host 0 gave all requests of the script and the network is drained, the journal gives the
/// value of every load, and they are the trace's.
pub fn all_are_loaded()
    ensures { AllAreLoaded }
{}

/// A trace that is read has at most eight cubes, whose blocks have 256 bytes, and its loads and
/// stores are inside of them.
pub fn read_is_trace()
    ensures { (text : List ℕ) (trace : Trace) → trace_of text ≡ Ok trace → IsTrace trace }
{}
