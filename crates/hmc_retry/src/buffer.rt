//! The retry buffer of a sender.

ghost use Rattle.std.specs.Prelude.{◌≡◌, ◌≤◌, ◌<◌, ◌-◌, ◌^◌, ◌==◌, ◌↔◌, suc, if◌then◌else◌, Some, List, [], ◌∷◌, ◌++◌, IfOk, IsNone, length, slice_get, position, option_map};
ghost use Rattle.hmc_codes.specs.Limits.{least_flits};
ghost use Rattle.hmc_codes.specs.Profile.{most_retry};
ghost use Rattle.hmc_packet.specs.Packet.{PacketFields, IsPacket, flits_of};
ghost use Rattle.hmc_retry.specs.RetryBuffer.{IsRetryBuffer, room_of, next_pointer, opening_buffer, after_put, acknowledged_by, acknowledgement, after_acknowledge, after_next, are_all_sent, packet_at, numbered};

use crate::Stray;
use circular_buffer::HeapCircularBuffer;
use hmc_codes::{Memory, Profile};
use hmc_packet::Packet;
use hmc_tokens::append;
use std::alloc::Global;
use std::marker::Model;

/// The packets that were begun and are not acknowledged, and where sending them again has come to.
#[derive(Drop)]
pub struct RetryBuffer {
    kept: HeapCircularBuffer<Packet>,
    flits: u16,
    profile: Profile,
    // The flits of the kept packets.
    used: u16,
    base: u16,
    position: u16,
}

impl Model for RetryBuffer {
    ghost use Rattle.hmc_retry.specs.RetryBuffer.{RetryFields, IsKept};

    ghost Value = { RetryFields };

    ghost view = { λ b. record {
      flits = b.flits;
      profile = b.profile;
      kept = b.kept.items;
      base = b.base;
      position = b.position;
    } };

    ghost invariant = { λ b. IsKept
        (record {
          flits = b.flits;
          profile = b.profile;
          kept = b.kept.items;
          base = b.base;
          position = b.position;
        })
        b.used b.kept.capacity };
}

impl RetryBuffer {
    ghost use Rattle.hmc_retry.specs.RetryBuffer.{RetryFields};

    /// A buffer for so many flits, 17 to half of the profile's modulus. It keeps nothing, its base
    /// is 0, and all that it will keep is reserved.
    pub fn new(alloc: Global, flits: u16, profile: Profile) -> Result<Self, Memory>
        requires least { least_flits ≤ flits }
        requires most { flits ≤ most_retry profile }
        ensures { IfOk result (λ buffer. buffer ≡ opening_buffer flits profile) }
    {
        let kept = HeapCircularBuffer::with_capacity(alloc, usize::from(flits))?;
        Ok(RetryBuffer {
            kept,
            flits,
            profile,
            used: 0,
            base: 0,
            position: 0,
        })
    }

    /// Does nothing. Its contract is what every buffer keeps.
    pub fn invariant(&self)
        ensures { IsRetryBuffer self.now }
    {
        let _ = &self.flits;
    }

    /// The flits for which there is room.
    pub fn room(&self) -> u16
        ensures { result ≡ room_of self.now }
    {
        self.flits - self.used
    }

    /// Keeps a copy of a packet. Where all others were sent, this one counts as sent too.
    pub fn keep(&mut self, packet: &Packet)
        requires room { flits_of packet.now ≤ room_of self.old }
        requires pointer { packet.now.frp ≡ next_pointer self.old (flits_of packet.now) }
        ensures { self.new ≡ after_put packet.now self.old }
    {
        let flits = u16::from(packet.flits());
        self.position = position_after_put(self.position, self.kept.len());
        self.used += flits;
        append(&mut self.kept, *packet);
    }

    /// Keeps a copy of a packet that gets these numbers: the code of the tokens that it returns,
    /// below 8, its sequence number, below 8, and its pointer. They are put in where it is kept, so
    /// that the packet is copied once.
    pub fn keep_with(&mut self, packet: &Packet, rtc: u8, seq: u8, frp: u16)
        requires packet { IsPacket (numbered rtc seq frp packet.now) }
        requires room { flits_of packet.now ≤ room_of self.old }
        requires pointer { frp ≡ next_pointer self.old (flits_of packet.now) }
        ensures { self.new ≡ after_put (numbered rtc seq frp packet.now) self.old }
    {
        let flits = u16::from(packet.flits());
        self.position = position_after_put(self.position, self.kept.len());
        self.used += flits;
        append_numbered(&mut self.kept, packet, rtc, seq, frp);
    }

    /// The packet that was kept last, lent; `None` exactly where none is kept.
    pub fn latest(&self) -> Option<&Packet>
        ensures some { (before : List PacketFields) (packet : PacketFields) →
            self.now.kept ≡ before ++ packet ∷ [] →
            option_map (λ kept. kept.now) result ≡ Some packet }
        ensures none { IsNone result ↔ (self.now.kept ≡ []) }
    {
        if self.kept.is_empty() {
            return None;
        }
        self.kept.get(self.kept.len() - 1)
    }

    /// The same, with the packet by value.
    pub fn put(&mut self, packet: Packet)
        requires room { flits_of packet ≤ room_of self.old }
        requires pointer { packet.frp ≡ next_pointer self.old (flits_of packet) }
        ensures { self.new ≡ after_put packet self.old }
    {
        self.keep(&packet);
    }

    /// Drops the packets up to the one with this pointer, and gives their number: none where it is
    /// the base. A pointer that is neither is stray, and nothing changes.
    pub fn acknowledge(&mut self, rrp: u16) -> Result<usize, Stray>
        ensures answer { result ≡ acknowledgement rrp self.old.base (acknowledged_by rrp self.old) }
        ensures left { self.new ≡ after_acknowledge rrp (acknowledged_by rrp self.old) self.old }
    {
        self.invariant();
        if rrp == self.base {
            return Ok(0);
        }
        let Some(place) = self.place_of(rrp) else {
            return Err(Stray {
                base: self.base,
                rrp,
            });
        };
        self.drop_front(place + 1, rrp);
        Ok(place + 1)
    }

    // Drops so many packets, the last of which has this pointer.
    fn drop_front(&mut self, count: usize, rrp: u16)
        requires some { 1 ≤ count }
        requires there { count ≤ length self.old.kept }
        requires pointer { (packet_at self.old.kept (count - 1)).frp ≡ rrp }
        ensures { self.new ≡ after_acknowledge rrp (Some count) self.old }
    {
        let modulus = self.profile.modulus();
        let left = self.kept.len() - count;
        self.used -= (rrp + modulus - self.base) % modulus;
        self.position = self.position.saturating_sub(count as u16);
        self.base = rrp;
        self.kept.truncate_front(left);
    }

    // The place of the packet with this pointer.
    fn place_of(&self, rrp: u16) -> Option<usize>
        ensures { result ≡ position (λ packet. packet.frp == rrp) self.now.kept }
    {
        self.kept.iter().position(|packet| packet.frp == rrp)
    }

    /// All kept packets are to be sent again, the oldest first.
    pub fn go_back(&mut self)
        ensures { self.new ≡ record self.old { position = 0 } }
    {
        self.position = 0;
    }

    /// Whether all kept packets were sent: `next` would give `None`.
    pub fn is_at_end(&self) -> bool
        ensures { result ≡ are_all_sent self.now }
    {
        usize::from(self.position) == self.kept.len()
    }

    /// The kept packet to be sent next, which then counts as sent; `None` exactly where all were
    /// sent.
    pub fn next(&mut self) -> Option<Packet>
        ensures packet { result ≡ slice_get self.old.kept self.old.position }
        ensures left { self.new ≡ after_next self.old }
    {
        let place = usize::from(self.position);
        if place >= self.kept.len() {
            return None;
        }
        self.position += 1;
        self.kept.get(place).copied()
    }
}

// Appends a copy of a packet, which gets its numbers where it lies.
fn append_numbered(
    ring: &mut HeapCircularBuffer<Packet>,
    packet: &Packet,
    rtc: u8,
    seq: u8,
    frp: u16,
)
    requires packet { IsPacket (numbered rtc seq frp packet.now) }
    requires room { length ring.old.items < ring.old.capacity }
    ensures items { ring.new.items ≡ ring.old.items ++ numbered rtc seq frp packet.now ∷ [] }
    ensures capacity { ring.new.capacity ≡ ring.old.capacity }
{
    let place = ring.len();
    append(ring, *packet);
    if let Some(kept) = ring.get_mut(place) {
        renumber(kept, rtc, seq, frp);
    }
}

// A packet gets its numbers.
fn renumber(packet: &mut Packet, rtc: u8, seq: u8, frp: u16)
    requires { IsPacket (numbered rtc seq frp packet.old) }
    ensures { packet.new ≡ numbered rtc seq frp packet.old }
{
    packet.rtc = rtc;
    packet.seq = seq;
    packet.frp = frp;
}

// A position at the end stays at the end when a packet is kept.
fn position_after_put(position: u16, kept: usize) -> u16
    requires { position < 2 ^ 16 - 1 }
    ensures { result ≡ (if position == kept then suc position else position) }
{
    if usize::from(position) == kept {
        position + 1
    } else {
        position
    }
}
