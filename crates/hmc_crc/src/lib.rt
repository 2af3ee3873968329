//! The cyclic redundancy check of a packet: 32 bits, by Koopman's polynomial 0x741B8CD7.
//!
//! The model is long division over two elements, as it is done by hand (`specs/Remainder.antt`):
//! the bytes, each with its highest bit first, are the coefficients of a polynomial, and the check
//! is the remainder of that polynomial times x^32. Nothing is reflected, added before or inverted
//! after.
//!
//! [`crc`] and [`crc_fast`] return `crc_of` of the bytes. [`crc_update`] carries the check of some
//! bytes on over more of them. [`check_is_a_word`] states that `crc_of` fits 32 bits whatever the
//! bytes are. Which bytes of a packet are covered, and where the check is in it, is
//! defined by the packet layer.
#![tactic(auto)]

mod remainder;
mod table;
mod word;

pub use remainder::{POLYNOMIAL, check_is_a_word, crc};
pub use table::{crc_fast, crc_update};
