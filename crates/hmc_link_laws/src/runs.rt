//! The runs of IRTRYs that a receiver counts, and the line by numbers.

ghost use Rattle.std.specs.Prelude.{◌≡◌, ◌≤◌, ℕ, List, ◌∷◌, slice_get, Some};
ghost use Rattle.hmc_codes.specs.Link.{LinkFields};
ghost use Rattle.hmc_packet.specs.declared.kind.Kind.{Kind};
ghost use Rattle.hmc_packet.specs.declared.outcome.Outcome.{Outcome};
ghost use Rattle.hmc_packet.specs.Landings.{run};
ghost use Rattle.hmc_send.specs.LinkEntries.{LinkEntry, receiver_entries};
ghost use Rattle.hmc_send.specs.declared.toward.Toward.{Toward};
ghost use Rattle.hmc_wire.specs.FieldsAre.{half_after};
ghost use Rattle.hmc_wire.specs.LinkLaws.{IsKept};
ghost use Rattle.hmc_link_laws.specs.Items.{items_on, IsGatheredAs};
ghost use Rattle.hmc_link_laws.specs.Lines.{line_as, irtry_as, LineIs};

/// A landing that lengthens a run of IRTRYs of a kind to 17 or more is of a flit that was sent as
/// an IRTRY of that kind, whatever the masks are: so is the 24th, which ends the run.
pub fn runs_are_real()
    ensures { (link : LinkFields) (d : Toward) (mask flit : List ℕ) (outcome : Outcome)
        (past : List LinkEntry) (kind : Kind) →
        IsKept link (LinkEntry.landed d mask flit outcome ∷ past) →
        17 ≤ run link.profile kind
        (receiver_entries d (LinkEntry.landed d mask flit outcome ∷ past)) →
        slice_get (line_as d past) 0 ≡ Some (irtry_as kind) }
{}

/// The line and the receiver of a direction by numbers, which the laws of hmc_numbers are about,
/// are those of the list: each item is a flit that was sent as that, and what is reached is the
/// mode with the gathered flits.
pub fn lines_are_of_numbers()
    ensures { (link : LinkFields) (d : Toward) (past : List LinkEntry) →
        IsKept link past → LineIs link d past (half_after link d past) }
{}

/// Each item of that line is a flit of the wire (`packets_are_whole`), in order: an item of packet
/// n with k flits before it is flit k of the piece of that packet. What a receiver has gathered
/// inside packet n are the first flits of the packet's place.
pub fn items_are_of_flits()
    ensures line { (link : LinkFields) (d : Toward) (past : List LinkEntry) →
        IsKept link past → (half_after link d past).direction.line ≡ items_on link d past }
    ensures far { (link : LinkFields) (d : Toward) (past : List LinkEntry) →
        IsKept link past → IsGatheredAs link d past (half_after link d past).direction.far }
{}
