//! Laws of logs. Each is the contract of a function that does nothing.

ghost use Rattle.hmc_log.specs.Laws.{PrintedIsRead, ReadEntriesFit};

/// Does nothing. Its contract is that a log that was read, printed, is read again as the same log.
pub fn printed_is_read()
    ensures { PrintedIsRead }
{}

/// Does nothing. Its contract is what each entry of a log that was read keeps: its host, its cube
/// or its slot is there, and a request has a tag exactly where it takes one.
pub fn read_entries_fit()
    ensures { ReadEntriesFit }
{}
