//! The text of a journal shows the journal. The law is the contract of a function that does
//! nothing.

ghost use Rattle.hmc_journal.specs.ParseJournals.{LawfulIsShown, JournalTells};

/// Does nothing. Its contract is about lawful journals of networks. The line of each entry shows
/// all of it: an answer is `Silent` or meets the condition of `reply`, and an idle landing has no
/// mask. So two journals with equal texts are equal, where their entries are values of [`Entry`]
/// (see [`Entry::invariant`]).
///
/// [`Entry`]: hmc_entries::Entry
/// [`Entry::invariant`]: hmc_entries::Entry::invariant
pub fn journal_tells()
    ensures shown { LawfulIsShown }
    ensures journal { JournalTells }
{}
