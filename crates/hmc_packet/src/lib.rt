//! Packets, and how they are spelled as flits and read again.
//!
//! The model: a [`Packet`] is a record of its fields (`PacketFields`) that keeps `IsPacket`: each
//! field is in its range, and zero where the command's layout lacks it, and the payload is whole
//! flits, as many as the command allows. `spelling` gives the flits of a packet and a return
//! pointer, each a list of 16 bytes. `read_of` gives what flits read as: a packet and its pointer,
//! or the first test that they fail.
//!
//! - [`spell`] returns `spelling`, and [`read`] returns `read_of`: `read` is `Ok` exactly on the
//!   spellings of packets, and inverts `spell`. [`lng_of`] and [`is_null`] look at one flit.
//! - A [`Draft`] is `draft_of` its packet: from both come the flits of the spelling, one by one, so
//!   that a packet is spelled once though its last flit has the return pointer of its own time.
//! - [`ask`] and [`reply`] return `request_packet` and `reply_packet`, [`request_of`] and
//!   [`answer_of`] return `request_in` and `answer_in`.
//! - [`head_of`] reads a first flit alone: `head_in`. [`header_in`] reads the word of its header,
//!   and [`Header::unpack`] the fields of that word: `header_of`.
//! - [`pret_flit`], [`irtry_flit`] and [`irtry_in`] return the definitions of these names: the flit
//!   of a PRET and of an IRTRY, and what a flit alone reads as, if that is an IRTRY. They make no
//!   packet.
//!
//! A layer above doesn't look into bytes: it cites these words, and the laws in `laws.rt` and
//! `link_laws.rt`, each the contract of a function that does nothing.
#![tactic(auto)]

mod alone;
mod answer;
mod bad;
mod copy;
mod draft;
mod feed;
mod flits;
mod head;
mod header;
mod kind;
mod landed;
mod laws;
mod link_laws;
mod masks;
mod outcome;
mod packet;
mod reading;
mod reception;
mod request;
mod seen;
mod spelling;
mod tail;
mod view;
mod what;

pub use alone::{irtry_flit, irtry_in, pret_flit};
pub use answer::{answer_of, reply};
pub use bad::Bad;
pub use copy::last_feed_of;
pub use draft::Draft;
pub use feed::Feed;
pub use flits::{TRAINING_FLIT, constant_flits};
pub use head::{Head, head_of};
pub use header::Header;
pub use kind::Kind;
pub use landed::Landed;
pub use laws::{
    answer_comes_back, first_flit_alone_reads_as_no_other_command,
    first_flit_names_length_and_command, first_flit_tells_the_head, flow_packet_is_one_flit,
    front_flits_do_not_depend_on_the_tail, null_and_training_are_no_first_flits,
    request_comes_back, spelling_is_as_long_as_its_packet, spelling_is_read_back,
};
pub use link_laws::{
    copies_are_packets, copy_of_a_whole_packet_is_the_packet, flits_in_order_are_a_spelling,
    irtry_is_read_alone, landings_are_by_rows, null_is_read_alone,
    numbers_and_poison_keep_a_packet, packets_of_an_end_are_packets,
};
pub use masks::{changes, under_mask};
pub use outcome::Outcome;
pub use packet::Packet;
pub use reading::{header_in, is_null, lng_of, read};
pub use reception::Reception;
pub use request::{ask, request_of};
pub use seen::Seen;
pub use spelling::spell;
pub use view::{Mode, View};
pub use what::What;
