//! Laws of reports. Each is the contract of a function that does nothing.

ghost use Rattle.hmc_texts.specs.Texts.{EntryIsLine, ReportIsLines, ReportIsCut};
ghost use Rattle.hmc_texts.specs.Texts.{EntryIsNotFinal, CaseStepsFit, EntriesFit};
ghost use Rattle.hmc_texts.specs.Texts.{ReportTells, CasesTell};

/// Each line of an entry, and each line of a report, ends in its only line feed. So the text of a
/// report has one division into lines. It holds of every journal, lawful or not.
pub fn reports_are_lines()
    ensures entry { EntryIsLine }
    ensures report { ReportIsLines }
    ensures cut { ReportIsCut }
{}

/// No line of an entry is a final line, whatever the entry is and whatever a run leaves.
pub fn entries_are_not_final()
    ensures { EntryIsNotFinal }
{}

/// The parts of each entry of a lawful journal fit their types, if the numbers of the steps do.
/// Those of every case do.
pub fn entries_fit()
    ensures steps { CaseStepsFit }
    ensures entries { EntriesFit }
{}

/// Equal bytes of two reports are of equal journals, whatever their cases are.
pub fn report_tells()
    ensures journal { ReportTells }
    ensures cases { CasesTell }
{}
