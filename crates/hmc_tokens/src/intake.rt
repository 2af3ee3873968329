//! What takes packets in and gives them out.

ghost use Rattle.std.specs.Prelude.{◌≡◌, ◌≤◌, ◌+◌, ℕ, List, [], ◌∷◌, ◌++◌, drop, slice_get, sum_by, option_map};
ghost use Rattle.hmc_packet.specs.Packet.{PacketFields};

use hmc_packet::Packet;

/// A list of packets: they are taken in at its end and taken out at its front, and each costs a
/// part of its size.
pub trait Intake: Drop {
    /// The packets, the front first.
    ghost packets: { Self → List PacketFields };

    /// What all packets together may cost.
    ghost size: { Self → ℕ };

    /// What a packet costs.
    ghost cost: { Self → PacketFields → ℕ };

    /// What all packets together may cost.
    fn size(&self) -> u32
        ensures { result ≡ size self.now };

    /// What the packets cost, at most the size.
    fn used(&self) -> u32
        ensures { result ≡ sum_by (cost self.now) (packets self.now) };

    /// What a packet costs, or would cost.
    fn cost(&self, packet: &Packet) -> u32
        ensures { result ≡ cost self.now packet.now };

    /// The front, lent; `None` exactly where there is no packet.
    fn front_ref(&self) -> Option<&Packet>
        ensures { option_map (λ packet. packet.now) result ≡ slice_get (packets self.now) 0 };

    /// Appends a packet, for which there is room.
    fn put(&mut self, packet: &Packet)
        requires { sum_by (cost self.old) (packets self.old) + cost self.old packet.now
            ≤ size self.old }
        ensures packets { packets self.new ≡ packets self.old ++ packet.now ∷ [] }
        ensures size { size self.new ≡ size self.old }
        ensures cost { cost self.new ≡ cost self.old };

    /// Removes the front, if there is one.
    fn drop_front(&mut self)
        ensures rest { packets self.new ≡ drop 1 (packets self.old) }
        ensures size { size self.new ≡ size self.old }
        ensures cost { cost self.new ≡ cost self.old };

    /// The front; `None` exactly where there is no packet.
    fn front(&self) -> Option<Packet>
        ensures { result ≡ slice_get (packets self.now) 0 }
    {
        self.front_ref().copied()
    }

    /// Appends a packet, for which there is room.
    fn take_in(&mut self, packet: Packet)
        requires { sum_by (cost self.old) (packets self.old) + cost self.old packet
            ≤ size self.old }
        ensures packets { packets self.new ≡ packets self.old ++ packet ∷ [] }
        ensures size { size self.new ≡ size self.old }
        ensures cost { cost self.new ≡ cost self.old }
    {
        self.put(&packet);
    }

    /// Removes and returns the front; `None` exactly where there is no packet, and then nothing
    /// changes.
    fn take_out(&mut self) -> Option<Packet>
        ensures front { result ≡ slice_get (packets self.old) 0 }
        ensures rest { packets self.new ≡ drop 1 (packets self.old) }
        ensures size { size self.new ≡ size self.old }
        ensures cost { cost self.new ≡ cost self.old }
    {
        let front = self.front();
        self.drop_front();
        front
    }

    /// The packets never cost more than the size.
    ghost fits: { (intake : Self) → sum_by (cost intake) (packets intake) ≤ size intake };
}
