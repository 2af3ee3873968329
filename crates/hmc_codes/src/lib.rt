//! Plain data of all layers: commands and their table, payloads, requests, answers, the shape of a
//! cube's memory with its address map, the setup of a link and its ends, the graph of links,
//! counts, the limits of cases, and the pieces of lines. Only `text` allocates.
//!
//! Contracts see a payload as the list of its bytes, and a request, a shape, a graph and a link's
//! setup as records of their fields. A request, a shape and a setup keep the ranges of their
//! fields. The other types are seen as they are. The table gives `code_of`, `word_of`, `allows_of`
//! and the like of a command, the address map gives `vault_of`, `bank_of` and `row_of` of an
//! address, and the texts are `request_text` and `answer_text`. The layers above cite these.
#![tactic(auto)]

mod answer;
mod command;
mod counts;
mod family;
mod flit;
mod graph;
mod layout;
mod length;
mod lift;
mod limits;
mod link_setup;
mod memory;
mod payload;
mod pieces;
mod place;
mod profile;
mod request;
mod shape;
mod table;
mod text;
mod unit;

pub use answer::{Acted, Answer};
pub use command::Command;
pub use counts::{Counters, CubeCounts, HostCounts, TokenRow};
pub use family::Family;
pub use flit::{Flit, ZERO_FLIT};
pub use graph::Graph;
pub use layout::Layout;
pub use length::Length;
pub use lift::Lift;
pub use limits::{
    LEAST_FLITS, MOST_ASKED, MOST_BANK_BITS, MOST_BLOCK, MOST_CHECK_INPUT, MOST_CUBES, MOST_HOSTS,
    MOST_INPUT, MOST_LINE, MOST_LINKS, MOST_MEMORY, MOST_QUEUE, MOST_REQUESTS, MOST_ROWS,
    MOST_STEPS, MOST_TAKEN, MOST_TOKENS, MOST_VAULT_BITS, PIECE, PORTS, TAGS,
};
pub use link_setup::LinkSetup;
pub use memory::Memory;
pub use payload::Payload;
pub use pieces::{
    Gathered, Line, LineText, append_bytes, append_decimal, append_hex_number, append_sixteen,
    append_spaced, spaced_digit,
};
pub use place::{Join, Place};
pub use profile::Profile;
pub use request::Request;
pub use shape::{Shape, Spot};
pub use table::COMMANDS;
pub use unit::Unit;
