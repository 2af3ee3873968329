//! Answers.

use crate::Payload;

/// The answer to a request.
#[derive(Clone, Copy)]
pub enum Answer {
    /// No answer: the request was posted.
    Silent,
    /// The request was performed. The flag says whether an atomic command's condition held, or its
    /// sum was out of range.
    Done { flag: bool },
    /// The bytes that a read, an atomic command or a logic unit returns, and its flag.
    Read { flag: bool, payload: Payload },
    /// The value of a register.
    Register { value: u32 },
    /// A register was written.
    Stored,
    /// The request has the error with this number, and changed nothing. A response carries numbers
    /// below 128.
    Refused { errstat: u8 },
}

/// What an atomic command or a logic unit makes of a block of 16 bytes.
#[derive(Clone, Copy, PartialEq, Eq)]
pub struct Acted {
    /// The new block.
    pub block: [u8; 16],
    /// The bytes of the answer.
    pub answer: [u8; 16],
    /// The flag of the answer.
    pub flag: bool,
}
