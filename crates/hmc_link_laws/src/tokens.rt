//! The tokens of a link.

ghost use Rattle.std.specs.Prelude.{List};
ghost use Rattle.hmc_codes.specs.Link.{LinkFields};
ghost use Rattle.hmc_send.specs.LinkEntries.{LinkEntry};
ghost use Rattle.hmc_send.specs.LinkSenders.{tokens};
ghost use Rattle.hmc_send.specs.declared.toward.Toward.{Toward};
ghost use Rattle.hmc_wire.specs.LinkLaws.{IsKept};
ghost use Rattle.hmc_link_laws.specs.Tokens.{TokensBalance};

/// The five numbers of a direction's tokens are what they are defined as, with no difference cut
/// off at zero, and their sum is what the end of the direction advertised.
pub fn tokens_balance()
    ensures { (link : LinkFields) (d : Toward) (past : List LinkEntry) →
        IsKept link past → TokensBalance link d past (tokens link d past) }
{}
