//! The lists, the output queues and the lines of a link.

ghost use Rattle.std.specs.Prelude.{◌≡◌, ◌≤◌, List, length};
ghost use Rattle.hmc_codes.specs.Link.{LinkFields};
ghost use Rattle.hmc_packet.specs.declared.feed.Feed.{Feed};
ghost use Rattle.hmc_send.specs.Choice.{choice};
ghost use Rattle.hmc_send.specs.LinkCalls.{LinkCall, IsLawful, is_full, view_in};
ghost use Rattle.hmc_send.specs.LinkEntries.{LinkEntry, other};
ghost use Rattle.hmc_send.specs.LinkLines.{line};
ghost use Rattle.hmc_send.specs.LinkSenders.{queue_in};
ghost use Rattle.hmc_send.specs.declared.toward.Toward.{Toward};
ghost use Rattle.hmc_wire.specs.LinkLaws.{IsKept};
ghost use Rattle.hmc_ends.specs.Answers.{after_call, link_sent};
ghost use Rattle.hmc_ends.specs.List.{handed_list};
ghost use Rattle.hmc_link_laws.specs.Lists.{list_after_send, way_of};

/// The output queue of a direction holds at most as many packets as it has room for, and its line
/// as many flits.
pub fn queues_and_lines_fit()
    ensures queue { (link : LinkFields) (d : Toward) (past : List LinkEntry) →
        IsLawful link past → length (queue_in link d past) ≤ link.output }
    ensures line { (link : LinkFields) (d : Toward) (past : List LinkEntry) →
        IsLawful link past → length (line link.profile d past) ≤ link.line }
{}

/// A call in one direction leaves the list of the other one.
pub fn calls_keep_the_other_list()
    ensures { (link : LinkFields) (past : List LinkEntry) (call : LinkCall) →
        handed_list link (other (way_of call)) (after_call link past call)
        ≡ handed_list link (other (way_of call)) past }
{}

/// A send leaves the list of its direction, but for the last flit of a packet that is forwarded:
/// that fills the open place of the packet.
pub fn sends_change_lists()
    ensures { (link : LinkFields) (d : Toward) (past : List LinkEntry) (feed : Feed) →
        IsKept link (after_call link past (LinkCall.send d feed)) →
        handed_list link d (after_call link past (LinkCall.send d feed))
        ≡ list_after_send link d past feed
        (link_sent (is_full link d past) (choice link.profile (view_in link d past feed))) }
{}
