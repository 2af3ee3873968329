//! The wire of each direction of a link.

ghost use Rattle.std.specs.Prelude.{List};
ghost use Rattle.hmc_codes.specs.Link.{LinkFields};
ghost use Rattle.hmc_send.specs.LinkEntries.{LinkEntry};
ghost use Rattle.hmc_send.specs.declared.toward.Toward.{Toward};
ghost use Rattle.hmc_wire.specs.LinkLaws.{IsKept};
ghost use Rattle.hmc_link_laws.specs.Wire.{IsWire};

/// Packets are on a wire whole and unmixed. The flits that were sent in a direction are single ones
/// and packets, one after the other; each packet is the spelling of its place with the return
/// pointer before its last flit, and its first flit says how many flits it has; each IRTRY and PRET
/// has the return pointer before it. Only the last packet may be unfinished.
pub fn packets_are_whole()
    ensures { (link : LinkFields) (d : Toward) (past : List LinkEntry) →
        IsKept link past → IsWire link d past }
{}
