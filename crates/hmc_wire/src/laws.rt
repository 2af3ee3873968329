//! What holds of a link after every lawful list of its entries.

ghost use Rattle.std.specs.Prelude.{List};
ghost use Rattle.hmc_codes.specs.Link.{LinkFields};
ghost use Rattle.hmc_numbers.specs.Turns.{MayTurns};
ghost use Rattle.hmc_send.specs.LinkEntries.{LinkEntry};
ghost use Rattle.hmc_send.specs.declared.toward.Toward.{Toward};
ghost use Rattle.hmc_wire.specs.EntryTurns.{turns_of};
ghost use Rattle.hmc_wire.specs.FieldsAre.{FieldsAre, half_after};
ghost use Rattle.hmc_wire.specs.LinkLaws.{DirectionLaws, TokenLaws, IsKept};

/// Each direction of a link is a list, whatever lands on it: the packets accepted at its end are
/// those begun first, in order and once each, and what is put in is begun in order.
pub fn link_is_a_list()
    ensures { (link : LinkFields) (d : Toward) (past : List LinkEntry) →
        IsKept link past → DirectionLaws link d past }
{}

/// The tokens of each direction are together those that were advertised.
pub fn tokens_add_up()
    ensures { (link : LinkFields) (d : Toward) (past : List LinkEntry) →
        IsKept link past → TokenLaws link d past }
{}

/// The entries of a link are turns of its two directions by numbers (hmc_numbers): each turn may
/// come after those before it, and the numbers of a direction after them are what the list says.
pub fn entries_are_events()
    ensures may { (link : LinkFields) (past : List LinkEntry) →
        IsKept link past → MayTurns link.retry link.tokens (turns_of link past) }
    ensures fields { (link : LinkFields) (d : Toward) (past : List LinkEntry) →
        IsKept link past → FieldsAre link d past (half_after link d past) }
{}
