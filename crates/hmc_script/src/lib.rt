//! Scripts: what hosts ask of cubes, as a text.
//!
//! A script is a list of items: a host, its request, whether the request is poisoned, and whether a
//! fence is before it. [`Script::parse`] reads a text and returns the script, or the first fault
//! with its line, by `specs/Script.antt`. [`Script::print`] writes a script as a text that is read
//! again as the same script; [`item_lines`] writes the lines of one item. [`Script::new`] and
//! [`Script::add`] make a script item by item, and [`Script::of_host`] takes out the items of one
//! host. A script has at most 65,536 items; a list of items in memory ([`Items`]) may have more.
//!
//! Lines, words and numbers are those of `hmc_text`.
#![tactic(auto)]

mod command;
mod fault;
mod item;
mod items;
mod laws;
mod meaning;
mod parse;
mod payload;
mod print;
mod request;
mod script;
mod stored;

pub use fault::{ScriptFault, ScriptKind};
pub use item::{Item, Outline};
pub use items::Items;
pub use laws::printed_is_read;
pub use payload::hex_payload;
pub use print::item_lines;
pub use request::take_request;
pub use script::Script;
