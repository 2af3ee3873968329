//! Reports of whole cases, and checks of reports.

ghost use Rattle.std.specs.Prelude.{◌≡◌, IfOk};
ghost use Rattle.std.specs.List.{concat};
ghost use Rattle.hmc_case.specs.Case.{case_of};
ghost use Rattle.hmc_journal.specs.Setup.{setup_of};
ghost use Rattle.hmc_replay.specs.Report.{passes, report_of};
ghost use Rattle.hmc_units.specs.Kinds.{unit_of};
ghost use Rattle.hmc_units.specs.Slots.{units_in};
ghost use Rattle.hmc_c.specs.Reports.{CaseShown, CheckedBy, CheckedWith, IsChecked, ReportShown, ReportedWith, report_status};
ghost use Rattle.hmc_c.specs.Units.{are_units, slots_of};

use crate::lines::write_text;
use crate::report::Report;
use crate::status::{BAD, MEMORY, NONE, OK, PASSED, UNLAWFUL};
use crate::units::{UnitIn, bench_of};
use hmc_case::{Case, CaseFault};
use hmc_check::{CheckFault, check};
use hmc_codes::Memory;
use hmc_replay::{Extent, replay_on};
use hmc_units::{Shipped, Slots};
use std::alloc::Global;

// Whether a landing of the case passes, and its report.
fn replayed(alloc: Global, case: &Case, bench: Slots<Shipped>) -> Result<(bool, Report), Memory>
    ensures passed { IfOk result (λ ended.
        ended.0 ≡ passes (setup_of case.now (units_in unit_of bench))) }
    ensures report { IfOk result (λ ended. ended.1.bytes.items
        ≡ concat (report_of (setup_of case.now (units_in unit_of bench)))) }
{
    let mut report = Report::new(alloc);
    match replay_on(alloc, &mut report, Extent::Whole, case, bench) {
        Ok((Ok(passed), _)) => Ok((passed, report)),
        Ok((Err(_), _)) => Err(Memory),
        Err(_) => Err(Memory),
    }
}

// The status of a report that is written: whether a landing passes.
fn report_status(passed: bool) -> u8
    ensures { result ≡ report_status passed }
{
    if passed { PASSED } else { OK }
}

// Writes the report of a case with this bench.
fn write_case(
    alloc: Global,
    case: &Case,
    bench: Slots<Shipped>,
    out: &mut [u8],
    length: &mut usize,
) -> u8
    ensures { CaseShown result length.new (setup_of case.now (units_in unit_of bench))
        out.old out.new }
{
    *length = 0;
    match replayed(alloc, case, bench) {
        Ok((passed, report)) => { write_text(report_status(passed), report.bytes(), out, length) }
        Err(_) => MEMORY,
    }
}

// Writes the report of the case that these bytes are, if they are one.
fn write_report(
    alloc: Global,
    text: &[u8],
    bench: Slots<Shipped>,
    out: &mut [u8],
    length: &mut usize,
) -> u8
    ensures { ReportShown result length.new (case_of text.now) (units_in unit_of bench)
        out.old out.new }
{
    *length = 0;
    match Case::read(alloc, text) {
        Ok(case) => write_case(alloc, &case, bench, out, length),
        Err(CaseFault::Memory) => MEMORY,
        Err(CaseFault::Bad { .. }) => BAD,
    }
}

/// Writes the whole report (docs/report.md) of the case that these bytes are, with these logic
/// units, to the front of `out`, and its number of bytes to `length`. It is made in memory first.
///
/// 0: it is written. 7: it is written, and ends with a landing that passed. 8: the room is too
/// small; `out` is as it was, and `length` is that of the report. With the others `length` is 0 and
/// `out` as it was. 1: out of memory. 6: the bytes are not a valid case. 8 with the length 0: there
/// are more than eight units, or one is none.
#[unsafe(no_mangle)]
pub extern "C" fn hmc_run_case(
    alloc: Global,
    text: &[u8],
    units: &[UnitIn],
    out: &mut [u8],
    length: &mut usize,
) -> u8
    ensures { ReportedWith (are_units units.now) result length.new (case_of text.now)
        (slots_of units.now) out.old out.new }
{
    *length = 0;
    match bench_of(alloc, units) {
        Ok(Some(bench)) => write_report(alloc, text, bench, out, length),
        Ok(None) => NONE,
        Err(_) => MEMORY,
    }
}

// Judges a report by a case and this bench.
fn judge(alloc: Global, case: &Case, report: &[u8], bench: Slots<Shipped>, number: &mut u32) -> u8
    ensures { IsChecked result (setup_of case.now (units_in unit_of bench)) report.now
        number.old number.new }
{
    match check(alloc, case, report, bench) {
        Ok(entries) => {
            *number = entries;
            OK
        }
        Err(CheckFault::Memory) => MEMORY,
        Err(CheckFault::Unlawful { line }) => {
            *number = line;
            UNLAWFUL
        }
    }
}

// The same of the case that these bytes are, if they are one.
fn judge_text(
    alloc: Global,
    text: &[u8],
    report: &[u8],
    bench: Slots<Shipped>,
    number: &mut u32,
) -> u8
    ensures { CheckedBy result (case_of text.now) (units_in unit_of bench) report.now
        number.old number.new }
{
    match Case::read(alloc, text) {
        Ok(case) => judge(alloc, &case, report, bench, number),
        Err(CaseFault::Memory) => MEMORY,
        Err(CaseFault::Bad { .. }) => BAD,
    }
}

/// Says whether a report is that of the case that these bytes are, with these logic units.
///
/// 0: it is, and `number` is how many entries it has. 20: it isn't, and `number` is that of its
/// first line, from 1, that shows it, at most 4,294,967,295. 1: out of memory. 6: the bytes are not
/// a valid case. 8: there are more than eight units, or one is none. With 1, 6 and 8 nothing is
/// written.
#[unsafe(no_mangle)]
pub extern "C" fn hmc_check(
    alloc: Global,
    text: &[u8],
    report: &[u8],
    units: &[UnitIn],
    number: &mut u32,
) -> u8
    ensures { CheckedWith (are_units units.now) result (case_of text.now) (slots_of units.now)
        report.now number.old number.new }
{
    match bench_of(alloc, units) {
        Ok(Some(bench)) => judge_text(alloc, text, report, bench, number),
        Ok(None) => NONE,
        Err(_) => MEMORY,
    }
}
