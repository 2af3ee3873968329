//! PRETs and IRTRYs, made with no packet: each command has one header, and its check. What a flit
//! alone reads as: an IRTRY, or none.

ghost use Rattle.std.specs.Prelude.{◌≡◌, ◌<◌, ◌==◌, ◌++◌, ◌^◌, ℕ, List, length, take, drop};
ghost use Rattle.hmc_codes.specs.Profile.{modulus_of};
ghost use Rattle.hmc_packet.specs.Draft.{tail_of_packet};
ghost use Rattle.hmc_packet.specs.Irtry.{irtry_flit, irtry_header, irtry_in, irtry_packet};
ghost use Rattle.hmc_packet.specs.Pret.{pret_flit, pret_header, pret_packet};
ghost use Rattle.hmc_packet.specs.Spelling.{word_bytes, half_bytes};
ghost use Rattle.hmc_packet.specs.Parts.{check_in, covered_in, header_in};
ghost use Rattle.hmc_crc.specs.Remainder.{crc_of};

use crate::Kind;
use crate::draft::{bytes_of_halves, flit_of_halves};
use crate::reading::{check_in, header_in, tail_in};
use crate::spelling::{bytes_of_half, bytes_of_word};
use crate::tail::Tail;
use hmc_codes::{Flit, Layout, Profile};
use hmc_crc::crc_update;

/// The word of a PRET's header: its code, and the length of one flit.
const PRET_HEADER: u64 = 0x81;

/// The check of the eight bytes of that word, which goes on over the tail.
const PRET_CHECK: u32 = 0x1932_A2B5;

/// The word of an IRTRY's header: its code, and the length of one flit.
const IRTRY_HEADER: u64 = 0x83;

/// The check of the eight bytes of that word, which goes on over the tail.
const IRTRY_CHECK: u32 = 0x15D7_267A;

// A flit of a header, a tail, and the check of both, given that of the header.
fn flit_of_words(header: u64, check: u32, tail: u32) -> Flit
    requires { check ≡ crc_of (word_bytes header) }
    ensures { result ≡ word_bytes header
        ++ (half_bytes tail ++ half_bytes (crc_of (word_bytes header ++ half_bytes tail))) }
{
    let tail = bytes_of_half(tail);
    let check = bytes_of_half(crc_update(check, &tail));
    flit_of_halves(&bytes_of_word(header), &bytes_of_halves(&tail, &check))
}

/// The PRET with this return pointer, which is below the profile's modulus.
pub fn pret_flit(rrp: u16, profile: Profile) -> Flit
    requires { rrp < modulus_of profile }
    ensures { result ≡ pret_flit profile rrp }
{
    flit_of_words(PRET_HEADER, PRET_CHECK, u32::from(rrp))
}

// The tail of an IRTRY before its check.
fn irtry_tail(kind: Kind, rrp: u16, profile: Profile) -> u32
    requires { rrp < modulus_of profile }
    ensures { half_bytes result ≡ tail_of_packet profile (irtry_packet kind) rrp }
{
    let tail = Tail {
        rrp,
        frp: kind.pointer(),
        seq: 0,
        slid: 0,
        errstat: 0,
        rtc: 0,
    };
    tail.pack(profile, Layout::Irtry)
}

/// The IRTRY of a kind with this return pointer, which is below the profile's modulus.
pub fn irtry_flit(kind: Kind, rrp: u16, profile: Profile) -> Flit
    requires { rrp < modulus_of profile }
    ensures { result ≡ irtry_flit profile kind rrp }
{
    flit_of_words(IRTRY_HEADER, IRTRY_CHECK, irtry_tail(kind, rrp, profile))
}

// Whether the check of a flit is right. Its header is that of an IRTRY.
fn is_checked(flit: &Flit) -> bool
    requires { header_in flit.now ≡ irtry_header }
    ensures { result ≡ (check_in flit.now == crc_of (covered_in flit.now)) }
{
    check_in(flit) == crc_update(IRTRY_CHECK, &flit[8..12])
}

// The kind and the return pointer of a flit that has the header of an IRTRY.
fn irtry_by_tail(flit: &Flit, profile: Profile) -> Option<(Kind, u16)>
    requires { header_in flit.now ≡ irtry_header }
    ensures { result ≡ irtry_in profile flit.now }
{
    let word = tail_in(flit);
    if !Tail::is_clean(profile, Layout::Irtry, word) {
        return None;
    }
    if !is_checked(flit) {
        return None;
    }
    let tail = Tail::unpack(profile, Layout::Irtry, word);
    Some((Kind::of_pointer(tail.frp), tail.rrp))
}

/// The kind and the return pointer of a flit that alone reads as an IRTRY; `None` exactly where it
/// doesn't. No packet is made of it.
pub fn irtry_in(flit: &Flit, profile: Profile) -> Option<(Kind, u16)>
    ensures { result ≡ irtry_in profile flit.now }
{
    if header_in(flit) == IRTRY_HEADER {
        irtry_by_tail(flit, profile)
    } else {
        None
    }
}
