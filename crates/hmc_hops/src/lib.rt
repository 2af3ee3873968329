//! Why requests and answers arrive in order over every route, by moves of packets alone.
//!
//! Here a network is a map, which says where a packet goes from a cube, and a list of moves of
//! packets between queues. A link is a queue like the others: its line holds what was begun on a
//! direction and isn't accepted yet. So nothing here speaks of flits, tokens or retry, and the laws
//! hold of every network whose links are lists. `IsMap` (`specs/Map.antt`) says what routes have to
//! be, `next_queue` (`specs/Queues.antt`) where a packet goes, and `May` (`specs/Moves.antt`) when
//! a move may come. A packet may pass packets of other flows. A flow is the requests of a host to a
//! unit, or the answers of a cube to a host; no packet passes one of its own flow.
//!
//! The functions have no code. Their clauses are the laws, which hold after each list of moves that
//! may come:
//!
//! - What was given is what was executed, then what waits at each place of the route, in order; and
//!   likewise for answers ([`delivers_in_order`]). So on each direction of the route the packets
//!   accepted carry a prefix of those accepted on the direction before. Where no packet is on its
//!   way, all is executed and taken ([`serves_all`]). Nothing goes between hosts and cubes of which
//!   one isn't there ([`carries_no_strangers`]).
//! - A packet is only in queues on its own way ([`keeps_routes`]), and no other queue adds to a
//!   flow on its route ([`feeds_from_one_buffer`]).
//! - A tag has one packet in the whole network ([`answers_each_tag`]).
//! - Queues are lists, first in and first out ([`keeps_order`]), as journals define their contents
//!   ([`moves_fronts`]).
//! - A packet that is cut through a cube changes none of this: the landing that accepts it is three
//!   moves ([`forwards_in_order`]).
//! - The routes of a graph in one part are a map ([`maps_graphs`]), and its routes are those of the
//!   graph ([`follows_routes`]).
//!
//! To use the laws, a layer above names the moves of each of its entries, and shows that they may
//! come. The proofs rest on one lemma (`stretch_keeps` in `proofs/QueueLaws.antt`): of each queue
//! and each flow, what entered is what left and then what waits. `proofs/OnRoute.antt` shows that
//! each packet is on its route, `proofs/Junctions.antt` that what of a flow leaves a queue enters
//! the next one, and `proofs/Telescope.antt` puts these together. `proofs/Worked.antt` computes a
//! request and its answer over two cubes, and shows moves that may not come.
#![tactic(auto)]

mod laws;

pub use laws::{
    answers_each_tag, carries_no_strangers, delivers_in_order, feeds_from_one_buffer,
    follows_routes, forwards_in_order, keeps_order, keeps_routes, maps_graphs, moves_fronts,
    serves_all,
};
