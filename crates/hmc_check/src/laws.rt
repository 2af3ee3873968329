//! Laws of reports. Each is the contract of a function that does nothing.

ghost use Rattle.std.specs.Prelude.{◌≡◌, ◌⊎◌, ℕ, List};
ghost use Rattle.hmc_journal.specs.Setup.{Setup};
ghost use Rattle.hmc_check.specs.Verdict.{IsLawfulReport, IsLeastUnfit};

/// A report has one verdict: it is lawful or unfit in some line and not both, and has one number of
/// entries, or one least line that is unfit.
pub fn one_verdict()
    ensures some { (setup : Setup) (report : List ℕ) →
        ((entries : ℕ) × IsLawfulReport setup report entries)
        ⊎ ((k : ℕ) × IsLeastUnfit setup report k) }
    ensures apart { (setup : Setup) (report : List ℕ) (entries k : ℕ) →
        IsLawfulReport setup report entries → IsLeastUnfit setup report k → ⊥ }
    ensures one { (setup : Setup) (report : List ℕ) (n m : ℕ) →
        IsLawfulReport setup report n → IsLawfulReport setup report m → n ≡ m }
    ensures least { (setup : Setup) (report : List ℕ) (j k : ℕ) →
        IsLeastUnfit setup report j → IsLeastUnfit setup report k → j ≡ k }
{}
