//! Laws of what is judged. Each is the contract of a function that does nothing.

ghost use Rattle.std.specs.Prelude.{◌≡◌, ℕ, List, Ok, length, reverse};
ghost use Rattle.std.specs.List.{All};
ghost use Rattle.hmc_log.specs.Laws.{FitsCase};
ghost use Rattle.hmc_search.specs.Reached.{IsUntagged};
ghost use Rattle.hmc_verdict.specs.Subject.{SubjectFields, subject_of};

/// What a search relies on, of a case and a log that were read. No poisoned request of the log has
/// a tag, and each entry fits the case: its host, its cube or its slot is there.
pub fn read_logs_fit()
    ensures untagged { (case log : List ℕ) (subject : SubjectFields) →
        subject_of case log ≡ Ok subject → IsUntagged (reverse subject.log.entries) }
    ensures fit { (case log : List ℕ) (subject : SubjectFields) →
        subject_of case log ≡ Ok subject →
        All (FitsCase subject.case.net.hosts (length subject.case.net.cubes))
        subject.log.entries }
{}
