//! What an execution did, in one place.
//!
//! One execution after another is written into it, so that no request and no answer is moved. Where
//! nothing was executed the request and the answer are old content, which no contract sees.

ghost use Rattle.std.specs.Prelude.{◌≡◌, ℕ};
ghost use Rattle.hmc_codes.specs.Request.{RequestFields};
ghost use Rattle.hmc_vault.specs.declared.execute.Executed.{Executed};
ghost use Rattle.hmc_vault.specs.declared.execute.Executed.TheVariants as executions;

use crate::Executed;
use hmc_codes::{Answer, Command, Payload, Request};
use std::marker::Model;

/// What an execution did, without the request and the answer.
#[derive(Clone, Copy)]
pub enum ExecutionKind {
    /// Nothing: the queue is empty.
    Empty,
    /// Nothing: the front has an answer, and the answers queue is full.
    Full,
    /// The front's request was performed.
    Ran {
        /// The host link that the request came from, below 8.
        host: u8,
        /// The request's tag, below 2,048.
        tag: u16,
    },
}

/// What an execution did. Contracts see it as an `Executed`.
#[derive(Drop)]
pub struct Execution {
    pub(crate) kind: ExecutionKind,
    pub(crate) request: Request,
    pub(crate) answer: Answer,
}

impl Model for Execution {
    ghost use Rattle.hmc_vault.specs.declared.execute.Executed.{Executed};
    ghost use Rattle.hmc_vault.specs.Execution.{executed_of};

    ghost Value = { Executed };

    ghost view = { λ e. executed_of e.kind e.request e.answer };
}

impl Execution {
    ghost use Rattle.hmc_codes.specs.declared.answer.Answer.{Answer};
    ghost use Rattle.hmc_vault.specs.Execution.{kind_of};

    /// The place before the first execution: nothing was done.
    pub fn new() -> Self
        ensures { result ≡ executions.Empty }
    {
        Execution {
            kind: ExecutionKind::Empty,
            request: Request {
                command: Command::Rd16,
                cube: 0,
                address: 0,
                payload: Payload::empty(),
            },
            answer: Answer::Silent,
        }
    }

    /// What was done, without the request and the answer.
    pub fn kind(&self) -> ExecutionKind
        ensures { result ≡ kind_of self.now }
    {
        self.kind
    }

    /// The request that was performed, if one was.
    pub fn request(&self) -> &Request
        ensures { (host tag : ℕ) (request : RequestFields) (answer : Answer) →
            self.now ≡ executions.Ran host tag request answer → result.now ≡ request }
    {
        &self.request
    }

    /// The answer to it. To a posted request it is `Silent`.
    pub fn answer(&self) -> &Answer
        ensures { (host tag : ℕ) (request : RequestFields) (answer : Answer) →
            self.now ≡ executions.Ran host tag request answer → result.now ≡ answer }
    {
        &self.answer
    }

    /// A copy of what was done.
    pub fn executed(&self) -> Executed
        ensures { result ≡ self.now }
    {
        match self.kind {
            ExecutionKind::Empty => Executed::Empty,
            ExecutionKind::Full => Executed::Full,
            ExecutionKind::Ran { host, tag } => Executed::Ran {
                host,
                tag,
                request: self.request,
                answer: self.answer,
            },
        }
    }
}
