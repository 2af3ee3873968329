//! Pieces of bytes in memory that was reserved for them.
ghost use Rattle.std.specs.Prelude.{◌≡◌, ◌<◌, ◌≤◌, ◌+◌, ◌++◌, [], ◌∷◌, map, length, vec_capacity, IfOk};
ghost use Rattle.std.specs.List.{concat};
ghost use Rattle.hmc_outside.specs.Cut.{PiecesFields, space_of};
ghost use Rattle.hmc_outside.specs.Pieces.{pieces_of};

use hmc_codes::Memory;
use std::alloc::Global;
use std::marker::Model;

/// Pieces that have a byte at least, and the room for their bytes.
#[derive(Drop)]
pub(crate) struct Pieces {
    bytes: Vec<u8>,
    lengths: Vec<usize>,
    room: usize,
}

impl Model for Pieces {
    ghost use Rattle.std.specs.Prelude.{vec_capacity};
    ghost use Rattle.hmc_outside.specs.Cut.{PiecesFields, cut, ArePieces};

    ghost Value = { PiecesFields };

    ghost view = { λ p. record { pieces = cut p.bytes.items p.lengths.items; room = p.room } };

    ghost invariant = { λ p. ArePieces p.bytes.items p.lengths.items
        p.room (vec_capacity p.bytes) (vec_capacity p.lengths) };
}

impl Pieces {
    /// No pieces, and room for so many bytes, which is reserved here.
    pub(crate) fn new(alloc: Global, room: usize) -> Result<Pieces, Memory>
        ensures { IfOk result (λ pieces. pieces ≡ record { pieces = []; room = room }) }
    {
        Ok(Pieces {
            bytes: Vec::with_capacity(alloc, room)?,
            lengths: Vec::with_capacity(alloc, room)?,
            room,
        })
    }

    /// The bytes of all pieces.
    pub(crate) fn bytes(&self) -> &[u8]
        ensures joined { result.now ≡ concat self.now.pieces }
        ensures within { length (concat self.now.pieces) ≤ self.now.room }
    {
        &self.bytes
    }

    /// How many bytes each piece has.
    pub(crate) fn lengths(&self) -> &[usize]
        ensures { result.now ≡ map length self.now.pieces }
    {
        &self.lengths
    }

    /// The room that is left.
    pub(crate) fn space(&self) -> usize
        ensures { result ≡ space_of self.now }
    {
        self.room - self.bytes.len()
    }

    /// Adds the bytes as one more piece, where there are any.
    pub(crate) fn add(&mut self, bytes: &[u8])
        requires { length bytes.now ≤ space_of self.old }
        ensures pieces { self.new.pieces ≡ self.old.pieces ++ pieces_of bytes.now }
        ensures room { self.new.room ≡ self.old.room }
    {
        if bytes.is_empty() {
            return;
        }
        keep(&mut self.bytes, bytes);
        append(&mut self.lengths, bytes.len());
    }
}

// Appends the bytes, for which there is room.
fn keep(held: &mut Vec<u8>, bytes: &[u8])
    requires { length held.old.items + length bytes.now ≤ vec_capacity held.old }
    ensures items { held.new.items ≡ held.old.items ++ bytes.now }
    ensures reserved { vec_capacity held.old ≤ vec_capacity held.new }
{
    let _ = held.extend_from_slice(bytes);
}

// Appends the length, for which there is room.
fn append(lengths: &mut Vec<usize>, new: usize)
    requires { length lengths.old.items < vec_capacity lengths.old }
    ensures items { lengths.new.items ≡ lengths.old.items ++ new ∷ [] }
    ensures reserved { vec_capacity lengths.new ≡ vec_capacity lengths.old }
{
    lengths.push_reserved(new);
}
