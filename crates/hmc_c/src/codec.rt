//! What needs no session: packets, checks, and the version.

ghost use Rattle.std.specs.Prelude.{◌≡◌};
ghost use Rattle.hmc_codec.specs.Plain.{plain_read, profile_of, spelled_by};
ghost use Rattle.hmc_crc.specs.Remainder.{crc_of};
ghost use Rattle.hmc_packet.specs.Reading.{read_of};
ghost use Rattle.hmc_c.specs.Codec.{FlitsShown, PacketShown, bad_status};

use crate::status::{BAD, BAD_COMMAND, BAD_CRC, BAD_LENGTH, BAD_RESERVED, NONE, OK};
use hmc_codec::{PlainPacket, read_plain, spell_plain};
use hmc_codes::Flit;
use hmc_crc::crc_fast;
use hmc_packet::Bad;

/// The version of these calls.
const VERSION: u32 = 1;

// The status of the first test that flits fail.
fn bad_status(bad: Bad) -> u8
    ensures { result ≡ bad_status bad }
{
    match bad {
        Bad::Length => BAD_LENGTH,
        Bad::Command => BAD_COMMAND,
        Bad::Reserved => BAD_RESERVED,
        Bad::Crc => BAD_CRC,
    }
}

/// Writes the flits of a packet, as it is sent in profile one or two, to the front of `out`, and
/// their number to `written`. A room of 17 flits holds each packet.
///
/// 0: they are written. 6: the numbers are no packet, or one that doesn't fit the profile. 8: the
/// room is too small. With 6 and 8 `written` is 0 and `out` as it was.
#[unsafe(no_mangle)]
pub extern "C" fn hmc_spell(
    packet: &PlainPacket,
    two: bool,
    out: &mut [Flit],
    written: &mut usize,
) -> u8
    ensures { FlitsShown result written.new (spelled_by (profile_of two) packet.now)
        out.old out.new }
{
    *written = 0;
    let Some(flits) = spell_plain(packet, two) else {
        return BAD;
    };
    let flits = flits.as_slice();
    if flits.len() > out.len() {
        return NONE;
    }
    out[..flits.len()].copy_from_slice(flits);
    *written = flits.len();
    OK
}

/// Shows the packet that flits spell in profile one or two, and the return pointer that it is sent
/// with.
///
/// 0: it is shown. Else the first test that the flits fail, and nothing is written: 16 length, 17
/// command, 18 reserved, 19 crc.
#[unsafe(no_mangle)]
pub extern "C" fn hmc_read(flits: &[Flit], two: bool, out: &mut PlainPacket) -> u8
    ensures { PacketShown result (plain_read (read_of (profile_of two) flits.now))
        out.old out.new }
{
    match read_plain(flits, two) {
        Ok(packet) => {
            *out = packet;
            OK
        }
        Err(bad) => bad_status(bad),
    }
}

/// The check of these bytes.
#[unsafe(no_mangle)]
pub extern "C" fn hmc_crc(bytes: &[u8]) -> u32
    ensures { result ≡ crc_of bytes.now }
{
    crc_fast(bytes)
}

/// The version of these calls.
#[unsafe(no_mangle)]
pub extern "C" fn hmc_version() -> u32
    ensures { result ≡ 1 }
{
    VERSION
}
