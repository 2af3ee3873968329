//! Reading and spelling undo each other. It is the contract of a function that does nothing.

ghost use Rattle.std.specs.Prelude.{◌≡◌, ℕ, Some};
ghost use Rattle.hmc_codes.specs.Bytes.{IsBytes};
ghost use Rattle.hmc_codes.specs.declared.profile.Profile.{Profile};
ghost use Rattle.hmc_packet.specs.Packet.{IsPacket, PacketFields};
ghost use Rattle.hmc_packet.specs.Spelling.{FitsProfile, spelling};
ghost use Rattle.hmc_codec.specs.Plain.{packet_named, plain_of, spelled_by};
ghost use Rattle.hmc_codec.specs.declared.plain.PlainPacket.{PlainPacket};

/// Every packet that fits a profile is named by its plain numbers, and spelled from them. Numbers
/// that name something name a packet.
pub fn plain_packets_come_back()
    ensures named { (packet : PacketFields) (rrp : ℕ) → IsPacket packet →
        packet_named (plain_of (record { packet = packet; rrp = rrp })) ≡ Some packet }
    ensures spelled { (profile : Profile) (packet : PacketFields) (rrp : ℕ) → IsPacket packet →
        FitsProfile profile packet rrp →
        spelled_by profile (plain_of (record { packet = packet; rrp = rrp }))
        ≡ Some (spelling profile packet rrp) }
    ensures packets { (plain : PlainPacket) (packet : PacketFields) → IsBytes plain.payload →
        packet_named plain ≡ Some packet → IsPacket packet }
{}
