//! Reading the input to its end.

ghost use Rattle.std.specs.Prelude.{◌≡◌, ◌⊎◌, ◌≤◌, ◌<◌, ◌^◌, length, true, false, List, ℕ, IfOk, IsErrOf, MatchResult};
ghost use Rattle.std.specs.Io.KnownBytes.{IsAtEnd};
ghost use Rattle.hmc_outside.specs.Raised.{raised};
ghost use Rattle.hmc_outside.specs.Reading.{Stops, ReadsOnce};
ghost use Rattle.hmc_replay.specs.Input.{BytesRead, ReadsPiece, ReadsWhole, ReadsPart};
ghost use Rattle.hmc_replay.specs.declared.input.InputError.TheVariants.{Memory};

use hmc_outside::Source;
use std::alloc::{AllocError, Global};

/// How many bytes are asked for at once.
const PIECE: usize = 4_096;

/// Why an input was not read to its end.
#[derive(Clone, Copy)]
pub enum InputError {
    /// Out of memory.
    Memory,
    /// The source failed.
    Fault,
    /// It has more bytes than an input may have.
    TooLong,
}

impl From<AllocError> for InputError {
    ghost from_gives = { λ _ e. e ≡ Memory };

    fn from(_: AllocError) -> Self {
        InputError::Memory
    }
}

// Reads a piece onto the end of the input, and returns its length. It asks for a byte at least.
fn read_piece<S: Source>(
    source: &mut S,
    input: &mut Vec<u8>,
    piece: &mut [u8],
) -> Result<usize, InputError>
    requires { 0 < length piece.old }
    ensures piece { IfOk result (λ n. ReadsPiece
        (S.shows source.old).left (S.shows source.new).left input.old.items input.new.items n) }
    ensures within { IfOk result (λ n. n ≤ length piece.old) }
    ensures ended { IfOk result (λ n. n ≡ 0 → IsAtEnd (S.shows source.new).left) }
    ensures read { BytesRead
        (length piece.old) (S.shows source.old).left (S.shows source.new).left }
    ensures not_judged { IsErrOf result InputError.TooLong → ⊥ }
    ensures once { ReadsOnce
        (S.shows source.old) (S.shows source.new) (length piece.old) }

    // The faults.
    ensures fault { IsErrOf result InputError.Fault →
        (S.shows source.new).faults ≡ raised (S.shows source.old).faults }
    ensures no_fault { IsErrOf result InputError.Fault ⊎
        ((S.shows source.new).faults ≡ (S.shows source.old).faults) }
    ensures failed { IsErrOf result InputError.Fault → (S.shows source.new).failed ≡ true }
    ensures not_failed { IsErrOf result InputError.Fault ⊎
        ((S.shows source.new).failed ≡ false) }

    // The stops.
    ensures goes_on { IfOk result
        (λ n. 0 < n → (S.shows source.new).stops ≡ (S.shows source.old).stops) }
    ensures end_stops { IfOk result
        (λ n. n ≡ 0 → Stops (S.shows source.old) (S.shows source.new)) }
    ensures fault_stops { IsErrOf result InputError.Fault →
        Stops (S.shows source.old) (S.shows source.new) }
    ensures no_stop { IsErrOf result InputError.Memory →
        (S.shows source.new).stops ≡ (S.shows source.old).stops }
{
    let Ok(n) = source.read(piece) else {
        return Err(InputError::Fault);
    };
    if n == 0 {
        return Ok(0);
    }
    input.extend_from_slice(&piece[..n])?;
    Ok(n)
}

/// All bytes of the source, to its end. At most one more is read than `most`.
pub fn read_input<S: Source>(
    alloc: Global,
    source: &mut S,
    most: usize,
) -> Result<Vec<u8>, InputError>
    requires { most < 2 ^ 32 }
    ensures { MatchResult result
        (λ input. ReadsWhole most (S.shows source.old) (S.shows source.new) input.items)
        (λ error. (input : List ℕ) ×
        ReadsPart most error (S.shows source.old) (S.shows source.new) input) }
{
    let mut input = Vec::new(alloc);
    let mut piece = [0; PIECE];
    'reads: while input.len() <= most {
        let asked = PIECE.min(most + 1 - input.len());
        match read_piece(source, &mut input, &mut piece[..asked]) {
            Ok(0) => return Ok(input),
            Ok(_) => {}
            Err(error) => return Err(error),
        }
    }
    Err(InputError::TooLong)
}
