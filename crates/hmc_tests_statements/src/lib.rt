//! What the main statements say no to.
//!
//! A proof shows that a statement holds. It doesn't show that the statement says enough: a weaker
//! one would be proved as well. So `proofs/` has rows that would fail then. Each is a small example
//! that breaks one part of a statement: a journal that breaks a guarantee (`Journals.antt`), a
//! call's result that breaks a promise of `replay` (`Replays.antt`) or of the program
//! (`Programs.antt`), and a list of entries that breaks a law of a link (`Links.antt`). A wrong
//! definition is met as well, where the code follows it. So some are computed, where no row of
//! their own crate shows a difference (`WorkedDefinitions.antt`). The crate has no code, and
//! nothing depends on it.
#![tactic(auto)]
