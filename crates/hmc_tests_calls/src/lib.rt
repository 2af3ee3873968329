//! Tests of calls: what no clause says. These are values from outside, lines of scripts and of
//! schedules with what they are read as, readers and writers that fail, and that each call that
//! takes memory gives its value where memory is ample. What a call returns and leaves is said by
//! its clauses, and computed at examples in the files `proofs/Worked*.antt`; whole networks are
//! compared with the reports of `examples/`. The tests are in a crate of their own, since a crate
//! with tests is proved twice: with them, and without.
#![tactic(auto)]

#[cfg(test)]
mod atomics;
#[cfg(test)]
mod crc;
#[cfg(test)]
mod memory;
#[cfg(test)]
mod outside;
#[cfg(test)]
mod schedule;
#[cfg(test)]
mod script;
