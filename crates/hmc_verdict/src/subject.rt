//! A case, and a log of what its hosts saw.

ghost use Rattle.std.specs.Prelude.{◌≡◌, ◌≤◌, IfOk, length};
ghost use Rattle.hmc_codes.specs.Limits.{most_cubes, most_hosts};
ghost use Rattle.hmc_case.specs.Case.{case_of};
ghost use Rattle.hmc_case.specs.Line.{bad_line as case_line};
ghost use Rattle.hmc_verdict.specs.Subject.{Answers, cube_shapes, log_in, log_in_bytes, or_line, subject_of};

use crate::SubjectFault;
use hmc_case::{Case, CaseFault, CubeSetup};
use hmc_codes::{Memory, Shape};
use hmc_log::{Log, LogFault};
use std::alloc::Global;
use std::marker::Model;
use std::str::from_utf8;

/// A case, and a log of what its hosts saw. Of the case its cubes and its hosts count.
#[derive(Drop)]
pub struct Subject {
    case: Case,
    log: Log,
}

impl Model for Subject {
    ghost use Rattle.hmc_verdict.specs.Subject.{SubjectFields};

    ghost Value = { SubjectFields };

    ghost view = { λ s. record { case = s.case; log = s.log } };
}

// The shapes of cubes with these setups.
fn shapes_of(alloc: Global, setups: &[CubeSetup]) -> Result<Vec<Shape>, Memory>
    ensures { IfOk result (λ shapes. shapes.items ≡ cube_shapes setups.now) }
{
    let shapes = setups.iter().map(|setup| setup.shape).collect(alloc)?;
    Ok(shapes)
}

// The log that a text is.
fn log_of(alloc: Global, case: &Case, text: &str) -> Result<Log, SubjectFault>
    ensures { Answers (λ log. log) result (log_in case.now text.now) }
{
    case.invariant();
    let shapes = shapes_of(alloc, case.cubes())?;
    match Log::parse(alloc, text, case.hosts(), &shapes) {
        Ok(log) => Ok(log),
        Err(LogFault::Memory) => Err(SubjectFault::Memory),
        Err(LogFault::Fault { line, kind }) => Err(SubjectFault::Log { line, kind }),
    }
}

// The log that bytes are.
#[tactic(auto, unfolding(crate::specs::Subject::log_in_bytes))]
fn log_of_bytes(alloc: Global, case: &Case, bytes: &[u8]) -> Result<Log, SubjectFault>
    ensures { Answers (λ log. log) result (log_in_bytes case.now bytes.now) }
{
    let Ok(text) = from_utf8(bytes) else {
        return Err(SubjectFault::NoText);
    };
    log_of(alloc, case, text)
}

// The case that bytes are.
fn case_of(alloc: Global, bytes: &[u8]) -> Result<Case, SubjectFault>
    ensures { Answers (λ case. case) result (or_line case_line (case_of bytes.now)) }
{
    match Case::read(alloc, bytes) {
        Ok(case) => Ok(case),
        Err(CaseFault::Memory) => Err(SubjectFault::Memory),
        Err(
            CaseFault::Bad {
                section,
                line,
                kind,
            },
        ) => Err(SubjectFault::Case {
            section,
            line,
            kind,
        }),
    }
}

impl Subject {
    /// Reads a case and a log for its hosts and cubes. The fault is the first one, and the faults
    /// of the case come before those of the log.
    #[tactic(auto, unfolding(crate::specs::Subject::subject_of))]
    pub fn read(alloc: Global, case: &[u8], log: &[u8]) -> Result<Subject, SubjectFault>
        ensures { Answers (λ subject. subject) result (subject_of case.now log.now) }
    {
        let case = case_of(alloc, case)?;
        let log = log_of_bytes(alloc, &case, log)?;
        Ok(Subject { case, log })
    }

    /// The case.
    pub fn case(&self) -> &Case
        ensures { result.now ≡ self.now.case }
    {
        &self.case
    }

    /// The log.
    pub fn log(&self) -> &Log
        ensures { result.now ≡ self.now.log }
    {
        &self.log
    }
}
