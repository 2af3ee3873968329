//! What the last flit of a packet gives to a copy that leaves before the packet has come whole.

ghost use Rattle.std.specs.Prelude.{◌≡◌};
ghost use Rattle.hmc_packet.specs.Copy.{layout_named, last_feed, last_feed_of};
ghost use Rattle.hmc_packet.specs.Head.{named_by};

use crate::Feed;
use crate::head::named_by;
use crate::reading::half_of;
use crate::tail::Tail;
use hmc_codes::{Flit, Layout, Profile};

// The layout that a first flit names; where it names no command, that of a request.
fn layout_named(first: &Flit) -> Layout
    ensures { result ≡ layout_named (named_by first.now) }
{
    match named_by(first) {
        Some(command) => command.layout(),
        None => Layout::Ask,
    }
}

#[tactic(auto, unfolding(crate::specs::Copy::last_feed))]
fn last_feed(profile: Profile, layout: Layout, flit: &Flit, good: bool) -> Feed
    ensures { result ≡ last_feed profile layout flit.now good }
{
    let tail = Tail::unpack(profile, layout, half_of(&flit[8..][..4]));
    let half = [
        flit[0], flit[1], flit[2], flit[3], flit[4], flit[5], flit[6], flit[7],
    ];
    Feed::Last {
        half,
        slid: tail.slid,
        errstat: tail.errstat,
        good,
    }
}

/// What the last flit of a packet that begins with `first` gives to a copy: its first eight bytes,
/// and the SLID of a request or the ERRSTAT of a response, read in the profile of the inbound link.
pub fn last_feed_of(profile: Profile, first: &Flit, last: &Flit, good: bool) -> Feed
    ensures { result ≡ last_feed_of profile first.now last.now good }
{
    last_feed(profile, layout_named(first), last, good)
}
