//! The first word of a packet, 64 bits.
//!
//! | Layout | Bits |
//! |---|---|
//! | request, flow packet | CMD 6..0, LNG 11..7, TAG 22..12, ADRS 57..24, CUB 63..61 |
//! | response | CMD 6..0, LNG 11..7, TAG 22..12, AF 33, SLID 41..39, CUB 63..61 |
//!
//! All other bits are zero, and of a flow packet all from bit 12 on.

ghost use Rattle.std.specs.Prelude.{◌≡◌};

use hmc_codes::Layout;

/// The fields of a header. Those that a layout lacks are zero.
#[derive(Clone, Copy, PartialEq, Eq)]
pub struct Header {
    /// The code of the command, below 128.
    pub code: u8,
    /// LNG: the length of the packet in flits, below 32.
    pub flits: u8,
    /// Below 2,048.
    pub tag: u16,
    /// Below 2^34.
    pub address: u64,
    /// AF of a response.
    pub flag: bool,
    /// The host link that a response goes to, below 8.
    pub slid: u8,
    /// The number of a cube, below 8.
    pub cube: u8,
}

impl Header {
    ghost use Rattle.hmc_packet.specs.Bits.{bits_from};
    ghost use Rattle.hmc_packet.specs.Header.{IsHeader, header_word, header_of, header_is_clean};

    /// The word with these fields.
    #[tactic(auto, unfolding(crate::specs::Header::header_word))]
    pub fn pack(&self, layout: Layout) -> u64
        requires { IsHeader self.now }
        ensures { result ≡ header_word layout self.now }
    {
        let common = u64::from(self.code) | u64::from(self.flits) << 7 | u64::from(self.tag) << 12;
        let place = u64::from(self.cube) << 61;
        match layout {
            Layout::Reply => {
                common | u64::from(self.flag) << 33 | u64::from(self.slid) << 39 | place
            }
            _ => common | self.address << 24 | place,
        }
    }

    /// The code in a word.
    pub fn code_in(word: u64) -> u8
        ensures { result ≡ bits_from 0 7 word }
    {
        (word & 0x7f) as u8
    }

    /// The length in flits in a word.
    pub fn flits_in(word: u64) -> u8
        ensures { result ≡ bits_from 7 5 word }
    {
        (word >> 7 & 0x1f) as u8
    }

    /// The fields of a word.
    #[tactic(auto, unfolding(crate::specs::Header::header_of))]
    pub fn unpack(layout: Layout, word: u64) -> Self
        ensures { result ≡ header_of layout word }
    {
        let reply = layout == Layout::Reply;
        Header {
            code: Header::code_in(word),
            flits: Header::flits_in(word),
            tag: (word >> 12 & 0x7ff) as u16,
            address: if reply { 0 } else { word >> 24 & 0x3_ffff_ffff },
            flag: reply && word >> 33 & 1 == 1,
            slid: if reply { (word >> 39 & 7) as u8 } else { 0 },
            cube: (word >> 61 & 7) as u8,
        }
    }

    /// Whether each reserved bit of a word is zero.
    #[tactic(auto, unfolding(crate::specs::Header::header_is_clean))]
    pub fn is_clean(layout: Layout, word: u64) -> bool
        ensures { result ≡ header_is_clean layout word }
    {
        match layout {
            Layout::Ask => word >> 23 & 1 == 0 && word >> 58 & 7 == 0,
            Layout::Reply => {
                word >> 23 & 0x3ff == 0 && word >> 34 & 0x1f == 0 && word >> 42 & 0x7_ffff == 0
            }
            Layout::Null | Layout::Pret | Layout::Tret | Layout::Irtry => word >> 12 == 0,
        }
    }
}
