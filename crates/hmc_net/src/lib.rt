//! The network: its hosts, links and cubes, one step at a time.
//!
//! The model: a network is its topology, the lists of its cubes, hosts, logic units and links as
//! their own layers see them, and the entry of its latest step (`NetState`). It keeps no journal.
//! That it stands for a case and a journal (`StandsFor`) says that the journal is lawful and that
//! each part is as the journal says: each link stands for the entries that the journal has of it,
//! and the packets in the queues of the cubes, the hosts, the memories, the registers and the logic
//! units are those of the journal. So what a step sees of the parts (`Sees`) is what it sees of the
//! journal, and the entry that it makes is the one that the journal's definition gives.
//!
//! - [`Network::build`] gives a network that stands for its case, with the logic units that were
//!   handed in, and the empty journal. It reserves all memory that the steps need. A network works
//!   with any [`hmc_units::Workbench`].
//! - [`Network::step`] takes the next step of the schedule: where the network stands for the case
//!   and a journal, it stands for the case and that journal with one more entry. The call returns
//!   [`Went`]. A step that is idle changes nothing but the last entry. After a landing that passed
//!   no step may be made. A step finds its parts by index, and searches no list of cubes or links.
//! - [`Network::last`] is the entry of the latest step, in one place that each step writes over.
//! - A network counts its steps as it goes, each in one row. By [`hmc_report::Finished`] it shows
//!   what the final lines say, which are those of its journal (`shows_journal`).
//!
//! A [`Net`] is a network and its journal, and has the same calls. It is for those who read the
//! entries afterwards; its memory grows with the steps of the case.
//!
//! The layer above rests on `StandsFor` and on the laws of lawful journals alone.
//!
//! In `specs/`, `Stands` has that relation, over the parts in `NetState`, `Journaled` has the
//! network with its journal, and `Opening` has the network of a case. The others are steps of the
//! proof: what a step sees (`Sees`) and does (`Apply`), what a give hands to a link (`Gives`), what
//! a landing rests on (`Links`), where a packet goes from a port (`Ports`), which packet the step
//! through forwards (`Throughs`), when no packet is on its way (`Quiescent`), what is shown at the
//! end (`Finished`), and `Went`. The parts are in crates of their own: where directions start
//! (hmc_wiring), the links by the numbers of directions (hmc_links), which packets are forwarded
//! before they have come whole (hmc_kept), and what is counted (hmc_tally).
#![tactic(auto)]

mod net;
mod network;
mod shown;
mod went;

pub use net::Net;
pub use network::Network;
pub use went::Went;
