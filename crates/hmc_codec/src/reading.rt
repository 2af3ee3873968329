//! From flits to plain numbers.

ghost use Rattle.std.specs.Prelude.{◌≡◌};
ghost use Rattle.hmc_packet.specs.Reading.{read_of};
ghost use Rattle.hmc_codec.specs.Plain.{plain_of, plain_read, profile_of};

use crate::PlainPacket;
use hmc_codes::{Flit, Profile};
use hmc_packet::{Bad, Seen, read};

/// The profile of a link: two, or else one.
pub(crate) fn profile_of(two: bool) -> Profile
    ensures { result ≡ profile_of two }
{
    if two { Profile::Two } else { Profile::One }
}

// The plain numbers of a packet that was read.
fn plain_of(seen: &Seen) -> PlainPacket
    ensures { result ≡ plain_of seen.now }
{
    let packet = &seen.packet;
    let payload = *packet.payload.padded();
    PlainPacket {
        address: packet.address,
        length: packet.payload.as_slice().len() as u32,
        tag: packet.tag,
        frp: packet.frp,
        rrp: seen.rrp,
        command: packet.command.code(),
        cube: packet.cube,
        slid: packet.slid,
        errstat: packet.errstat,
        rtc: packet.rtc,
        seq: packet.seq,
        flag: packet.flag,
        poisoned: packet.poisoned,
        payload,
    }
}

/// The packet and the return pointer that flits spell in profile two or one, or the first test that
/// they fail.
pub fn read_plain(flits: &[Flit], two: bool) -> Result<PlainPacket, Bad>
    ensures { result ≡ plain_read (read_of (profile_of two) flits.now) }
{
    match read(flits, profile_of(two)) {
        Ok(seen) => Ok(plain_of(&seen)),
        Err(bad) => Err(bad),
    }
}
