//! The return pointers of a link.

ghost use Rattle.std.specs.Prelude.{◌≡◌, ℕ, List, ◌∷◌, Some};
ghost use Rattle.hmc_codes.specs.Link.{LinkFields};
ghost use Rattle.hmc_packet.specs.declared.outcome.Outcome.{Outcome};
ghost use Rattle.hmc_send.specs.LinkEntries.{LinkEntry, other};
ghost use Rattle.hmc_send.specs.declared.toward.Toward.{Toward};
ghost use Rattle.hmc_wire.specs.LinkLaws.{IsKept};
ghost use Rattle.hmc_link_laws.specs.Pointers.{counted_pointer, Acknowledges, PointersAcknowledge};

/// A return pointer that a landing counts is never stray: it acknowledges exactly the packets of
/// the other direction up to its number. So did each that the landings before it counted.
pub fn counted_pointers_acknowledge()
    ensures one { (link : LinkFields) (d : Toward) (mask flit : List ℕ) (outcome : Outcome)
        (past : List LinkEntry) (rrp : ℕ) →
        IsKept link (LinkEntry.landed d mask flit outcome ∷ past) →
        counted_pointer link d past flit ≡ Some rrp →
        Acknowledges link (other d) past (LinkEntry.landed d mask flit outcome ∷ past) rrp }
    ensures each { (link : LinkFields) (past : List LinkEntry) →
        IsKept link past → PointersAcknowledge link past }
{}
