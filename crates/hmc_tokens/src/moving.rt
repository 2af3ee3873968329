//! The move of a packet from one intake to another.

ghost use Rattle.std.specs.Prelude.{◌≡◌, ◌++◌};
ghost use Rattle.hmc_tokens.specs.Intake.{has_room};
ghost use Rattle.hmc_tokens.specs.Moving.{moved_by, moved_packets, shifted_by, shifted_packets, kept_packets};

use crate::Intake;
use hmc_packet::Packet;

/// What a move did.
#[derive(Clone, Copy)]
pub enum Moved {
    /// Nothing: there was no packet to move.
    Empty,
    /// Nothing: there was no room for the front.
    Full,
    /// This packet left the front of the one and is at the end of the other.
    Done(Packet),
}

/// What a move did, without the packet.
#[derive(Clone, Copy)]
pub enum Shift {
    /// Nothing: there was no packet to move.
    Empty,
    /// Nothing: there was no room for the front.
    Full,
    /// The front of the one is at the end of the other.
    Done,
}

/// Moves the front of one intake to the end of another, and copies it once.
pub fn shift_one<F: Intake, T: Intake>(from: &mut F, to: &mut T) -> Shift
    ensures answer { result
        ≡ shifted_by (F.packets from.old)
        (has_room (T.packets to.old) (T.size to.old) (T.cost to.old)) }
    ensures out { F.packets from.new ≡ kept_packets result (F.packets from.old) }
    ensures into { T.packets to.new
        ≡ T.packets to.old ++ shifted_packets result (F.packets from.old) }

    // The sizes and costs stay.
    ensures from_size { F.size from.new ≡ F.size from.old }
    ensures from_cost { F.cost from.new ≡ F.cost from.old }
    ensures to_size { T.size to.new ≡ T.size to.old }
    ensures to_cost { T.cost to.new ≡ T.cost to.old }
{
    let Some(front) = from.front_ref() else {
        return Shift::Empty;
    };
    if to.cost(front) > to.size() - to.used() {
        return Shift::Full;
    }
    to.put(front);
    from.drop_front();
    Shift::Done
}

/// Moves the front of one intake to the end of another.
pub fn move_one<F: Intake, T: Intake>(from: &mut F, to: &mut T) -> Moved
    ensures answer { result
        ≡ moved_by (F.packets from.old)
        (has_room (T.packets to.old) (T.size to.old) (T.cost to.old)) }
    ensures out { F.packets from.old ≡ moved_packets result ++ F.packets from.new }
    ensures into { T.packets to.new ≡ T.packets to.old ++ moved_packets result }

    // The sizes and costs stay.
    ensures from_size { F.size from.new ≡ F.size from.old }
    ensures from_cost { F.cost from.new ≡ F.cost from.old }
    ensures to_size { T.size to.new ≡ T.size to.old }
    ensures to_cost { T.cost to.new ≡ T.cost to.old }
{
    let Some(front) = from.front() else {
        return Moved::Empty;
    };
    if to.cost(&front) > to.size() - to.used() {
        return Moved::Full;
    }
    let _ = from.take_out();
    to.take_in(front);
    Moved::Done(front)
}
