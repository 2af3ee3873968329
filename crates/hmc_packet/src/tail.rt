//! The fields of a packet's last word: its lower half, 32 bits. The upper half is the check.
//!
//! | Profile | Bits |
//! |---|---|
//! | One | RRP 8..0, FRP 17..9, SEQ 20..18, SLID 28..26 or ERRSTAT 28..22, RTC 31..29 |
//! | Two | RRP 10..0, FRP 21..11, SEQ 24..22, SLID 27..25 or ERRSTAT 27..25, RTC 31..29 |
//!
//! Responses have ERRSTAT, requests and flow packets SLID. All other bits are zero. Of a TRET SLID
//! is zero too, of an IRTRY all from SEQ on, and of a PRET all but RRP. The FRP of an IRTRY is 1 or
//! 2.

ghost use Rattle.std.specs.Prelude.{◌≡◌};

use hmc_codes::{Layout, Profile};

/// The fields of a tail without the check. Those that a layout lacks are zero.
#[derive(Clone, Copy, PartialEq, Eq)]
pub struct Tail {
    /// The return retry pointer, below the profile's modulus.
    pub rrp: u16,
    /// The forward retry pointer, below the profile's modulus.
    pub frp: u16,
    /// The sequence number, below 8.
    pub seq: u8,
    /// The host link that a request came from, below 8.
    pub slid: u8,
    /// The error number of a response, below 128, and in profile Two below 8.
    pub errstat: u8,
    /// The code of the tokens that are returned, below 8.
    pub rtc: u8,
}

impl Tail {
    ghost use Rattle.hmc_packet.specs.Tail.{IsTail, tail_word, tail_of, has_zeros, tail_is_clean};

    /// The word with these fields.
    pub fn pack(&self, profile: Profile, layout: Layout) -> u32
        requires { IsTail profile self.now }
        ensures { result ≡ tail_word profile layout self.now }
    {
        match profile {
            Profile::One => self.pack_one(layout),
            Profile::Two => self.pack_two(layout),
        }
    }

    #[tactic(auto, unfolding(crate::specs::Tail::tail_word))]
    fn pack_one(&self, layout: Layout) -> u32
        requires { IsTail Profile.One self.now }
        ensures { result ≡ tail_word Profile.One layout self.now }
    {
        let pointers = u32::from(self.rrp) | u32::from(self.frp) << 9;
        let common = pointers | u32::from(self.seq) << 18;
        let tokens = u32::from(self.rtc) << 29;
        match layout {
            Layout::Reply => common | u32::from(self.errstat) << 22 | tokens,
            _ => common | u32::from(self.slid) << 26 | tokens,
        }
    }

    #[tactic(auto, unfolding(crate::specs::Tail::tail_word))]
    fn pack_two(&self, layout: Layout) -> u32
        requires { IsTail Profile.Two self.now }
        ensures { result ≡ tail_word Profile.Two layout self.now }
    {
        let pointers = u32::from(self.rrp) | u32::from(self.frp) << 11;
        let common = pointers | u32::from(self.seq) << 22;
        let tokens = u32::from(self.rtc) << 29;
        match layout {
            Layout::Reply => common | u32::from(self.errstat) << 25 | tokens,
            _ => common | u32::from(self.slid) << 25 | tokens,
        }
    }

    /// The fields of a word.
    pub fn unpack(profile: Profile, layout: Layout, word: u32) -> Self
        ensures { result ≡ tail_of profile layout word }
    {
        match profile {
            Profile::One => Self::unpack_one(layout, word),
            Profile::Two => Self::unpack_two(layout, word),
        }
    }

    #[tactic(auto, unfolding(crate::specs::Tail::tail_of))]
    fn unpack_one(layout: Layout, word: u32) -> Self
        ensures { result ≡ tail_of Profile.One layout word }
    {
        let reply = layout == Layout::Reply;
        Tail {
            rrp: (word & 0x1ff) as u16,
            frp: (word >> 9 & 0x1ff) as u16,
            seq: (word >> 18 & 7) as u8,
            slid: if reply { 0 } else { (word >> 26 & 7) as u8 },
            errstat: if reply { (word >> 22 & 0x7f) as u8 } else { 0 },
            rtc: (word >> 29 & 7) as u8,
        }
    }

    #[tactic(auto, unfolding(crate::specs::Tail::tail_of))]
    fn unpack_two(layout: Layout, word: u32) -> Self
        ensures { result ≡ tail_of Profile.Two layout word }
    {
        let reply = layout == Layout::Reply;
        Tail {
            rrp: (word & 0x7ff) as u16,
            frp: (word >> 11 & 0x7ff) as u16,
            seq: (word >> 22 & 7) as u8,
            slid: if reply { 0 } else { (word >> 25 & 7) as u8 },
            errstat: if reply { (word >> 25 & 7) as u8 } else { 0 },
            rtc: (word >> 29 & 7) as u8,
        }
    }

    // Whether each field of a flow packet that has to be zero is, and an IRTRY is a start or a
    // clear. `&` and `|` need no branch where `&&` and `||` have one a field.
    fn has_zeros(&self, layout: Layout) -> bool
        ensures { result ≡ has_zeros layout self.now }
    {
        match layout {
            Layout::Ask | Layout::Reply => true,
            Layout::Tret => self.slid == 0,
            Layout::Irtry => {
                ((self.seq == 0) & (self.slid == 0))
                    & ((self.rtc == 0) & ((self.frp == 1) | (self.frp == 2)))
            }
            Layout::Pret => {
                ((self.frp == 0) & (self.seq == 0)) & ((self.slid == 0) & (self.rtc == 0))
            }
            Layout::Null => {
                ((self.rrp == 0) & (self.frp == 0))
                    & ((self.seq == 0) & ((self.slid == 0) & (self.rtc == 0)))
            }
        }
    }

    /// Whether each bit that has to be zero is, and an IRTRY is a start or a clear.
    #[tactic(auto, unfolding(crate::specs::Tail::tail_is_clean))]
    pub fn is_clean(profile: Profile, layout: Layout, word: u32) -> bool
        ensures { result ≡ tail_is_clean profile layout word }
    {
        let tail = Tail::unpack(profile, layout, word);
        tail.pack(profile, layout) == word && tail.has_zeros(layout)
    }
}
