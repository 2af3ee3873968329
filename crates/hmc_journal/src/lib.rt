//! What the journal of a run is, and what is promised of it: definitions alone.
//!
//! A journal has an entry of hmc_entries for each step. Definitions see it as a list with the
//! newest entry first, so that each of them is a recursion on what came before. The lists that they
//! make of it, such as the requests given, have the oldest first.
//!
//! `Lawful` says which journals are lawful, by the entry that each step yields (`Next`).
//! `Guarantees` has what is promised of them. That lawful journals keep these promises is in
//! hmc_laws. `proofs/` has lemmas that open the definitions, and rows on which they are computed.
#![tactic(auto)]
