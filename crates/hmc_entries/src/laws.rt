//! Laws of lines. Each is the contract of a function that does nothing.

ghost use Rattle.std.specs.Prelude.{◌≡◌, List, reverse, map};
ghost use Rattle.hmc_entries.specs.declared.entry.Entry.{Entry};
ghost use Rattle.hmc_entries.specs.Lines.{line_of};
ghost use Rattle.hmc_entries.specs.Parse.{LineTells, TextTells};
ghost use Rattle.hmc_entries.specs.Text.{lines_of};

/// Does nothing. Its contract is that equal lines are of equal entries, and equal texts of equal
/// lists of entries, where the numbers of the entries fit their types and their lines show all of
/// them.
pub fn text_tells()
    ensures line { LineTells }
    ensures text { TextTells }
{}

/// The lines of a journal are those of its entries, in the order in which they came.
pub fn lines_are_in_order()
    ensures { (entries : List Entry) → lines_of (reverse entries) ≡ map line_of entries }
{}
