//! The division, by tables of the remainders of all bytes.

ghost use Rattle.std.specs.Prelude.{◌≡◌, ℕ, List, ◌++◌, slice_index};
ghost use Rattle.hmc_crc.specs.Bits.{bits_below};
ghost use Rattle.hmc_crc.specs.Remainder.{plus, divide, divisor, zeros, crc_of, crc_update};

use crate::word::{with_word, word_at};

/// The remainder of each byte, by its number.
const REMAINDERS: [u32; 256] = [
    0x0000_0000,
    0x741B_8CD7,
    0xE837_19AE,
    0x9C2C_9579,
    0xA475_BF8B,
    0xD06E_335C,
    0x4C42_A625,
    0x3859_2AF2,
    0x3CF0_F3C1,
    0x48EB_7F16,
    0xD4C7_EA6F,
    0xA0DC_66B8,
    0x9885_4C4A,
    0xEC9E_C09D,
    0x70B2_55E4,
    0x04A9_D933,
    0x79E1_E782,
    0x0DFA_6B55,
    0x91D6_FE2C,
    0xE5CD_72FB,
    0xDD94_5809,
    0xA98F_D4DE,
    0x35A3_41A7,
    0x41B8_CD70,
    0x4511_1443,
    0x310A_9894,
    0xAD26_0DED,
    0xD93D_813A,
    0xE164_ABC8,
    0x957F_271F,
    0x0953_B266,
    0x7D48_3EB1,
    0xF3C3_CF04,
    0x87D8_43D3,
    0x1BF4_D6AA,
    0x6FEF_5A7D,
    0x57B6_708F,
    0x23AD_FC58,
    0xBF81_6921,
    0xCB9A_E5F6,
    0xCF33_3CC5,
    0xBB28_B012,
    0x2704_256B,
    0x531F_A9BC,
    0x6B46_834E,
    0x1F5D_0F99,
    0x8371_9AE0,
    0xF76A_1637,
    0x8A22_2886,
    0xFE39_A451,
    0x6215_3128,
    0x160E_BDFF,
    0x2E57_970D,
    0x5A4C_1BDA,
    0xC660_8EA3,
    0xB27B_0274,
    0xB6D2_DB47,
    0xC2C9_5790,
    0x5EE5_C2E9,
    0x2AFE_4E3E,
    0x12A7_64CC,
    0x66BC_E81B,
    0xFA90_7D62,
    0x8E8B_F1B5,
    0x939C_12DF,
    0xE787_9E08,
    0x7BAB_0B71,
    0x0FB0_87A6,
    0x37E9_AD54,
    0x43F2_2183,
    0xDFDE_B4FA,
    0xABC5_382D,
    0xAF6C_E11E,
    0xDB77_6DC9,
    0x475B_F8B0,
    0x3340_7467,
    0x0B19_5E95,
    0x7F02_D242,
    0xE32E_473B,
    0x9735_CBEC,
    0xEA7D_F55D,
    0x9E66_798A,
    0x024A_ECF3,
    0x7651_6024,
    0x4E08_4AD6,
    0x3A13_C601,
    0xA63F_5378,
    0xD224_DFAF,
    0xD68D_069C,
    0xA296_8A4B,
    0x3EBA_1F32,
    0x4AA1_93E5,
    0x72F8_B917,
    0x06E3_35C0,
    0x9ACF_A0B9,
    0xEED4_2C6E,
    0x605F_DDDB,
    0x1444_510C,
    0x8868_C475,
    0xFC73_48A2,
    0xC42A_6250,
    0xB031_EE87,
    0x2C1D_7BFE,
    0x5806_F729,
    0x5CAF_2E1A,
    0x28B4_A2CD,
    0xB498_37B4,
    0xC083_BB63,
    0xF8DA_9191,
    0x8CC1_1D46,
    0x10ED_883F,
    0x64F6_04E8,
    0x19BE_3A59,
    0x6DA5_B68E,
    0xF189_23F7,
    0x8592_AF20,
    0xBDCB_85D2,
    0xC9D0_0905,
    0x55FC_9C7C,
    0x21E7_10AB,
    0x254E_C998,
    0x5155_454F,
    0xCD79_D036,
    0xB962_5CE1,
    0x813B_7613,
    0xF520_FAC4,
    0x690C_6FBD,
    0x1D17_E36A,
    0x5323_A969,
    0x2738_25BE,
    0xBB14_B0C7,
    0xCF0F_3C10,
    0xF756_16E2,
    0x834D_9A35,
    0x1F61_0F4C,
    0x6B7A_839B,
    0x6FD3_5AA8,
    0x1BC8_D67F,
    0x87E4_4306,
    0xF3FF_CFD1,
    0xCBA6_E523,
    0xBFBD_69F4,
    0x2391_FC8D,
    0x578A_705A,
    0x2AC2_4EEB,
    0x5ED9_C23C,
    0xC2F5_5745,
    0xB6EE_DB92,
    0x8EB7_F160,
    0xFAAC_7DB7,
    0x6680_E8CE,
    0x129B_6419,
    0x1632_BD2A,
    0x6229_31FD,
    0xFE05_A484,
    0x8A1E_2853,
    0xB247_02A1,
    0xC65C_8E76,
    0x5A70_1B0F,
    0x2E6B_97D8,
    0xA0E0_666D,
    0xD4FB_EABA,
    0x48D7_7FC3,
    0x3CCC_F314,
    0x0495_D9E6,
    0x708E_5531,
    0xECA2_C048,
    0x98B9_4C9F,
    0x9C10_95AC,
    0xE80B_197B,
    0x7427_8C02,
    0x003C_00D5,
    0x3865_2A27,
    0x4C7E_A6F0,
    0xD052_3389,
    0xA449_BF5E,
    0xD901_81EF,
    0xAD1A_0D38,
    0x3136_9841,
    0x452D_1496,
    0x7D74_3E64,
    0x096F_B2B3,
    0x9543_27CA,
    0xE158_AB1D,
    0xE5F1_722E,
    0x91EA_FEF9,
    0x0DC6_6B80,
    0x79DD_E757,
    0x4184_CDA5,
    0x359F_4172,
    0xA9B3_D40B,
    0xDDA8_58DC,
    0xC0BF_BBB6,
    0xB4A4_3761,
    0x2888_A218,
    0x5C93_2ECF,
    0x64CA_043D,
    0x10D1_88EA,
    0x8CFD_1D93,
    0xF8E6_9144,
    0xFC4F_4877,
    0x8854_C4A0,
    0x1478_51D9,
    0x6063_DD0E,
    0x583A_F7FC,
    0x2C21_7B2B,
    0xB00D_EE52,
    0xC416_6285,
    0xB95E_5C34,
    0xCD45_D0E3,
    0x5169_459A,
    0x2572_C94D,
    0x1D2B_E3BF,
    0x6930_6F68,
    0xF51C_FA11,
    0x8107_76C6,
    0x85AE_AFF5,
    0xF1B5_2322,
    0x6D99_B65B,
    0x1982_3A8C,
    0x21DB_107E,
    0x55C0_9CA9,
    0xC9EC_09D0,
    0xBDF7_8507,
    0x337C_74B2,
    0x4767_F865,
    0xDB4B_6D1C,
    0xAF50_E1CB,
    0x9709_CB39,
    0xE312_47EE,
    0x7F3E_D297,
    0x0B25_5E40,
    0x0F8C_8773,
    0x7B97_0BA4,
    0xE7BB_9EDD,
    0x93A0_120A,
    0xABF9_38F8,
    0xDFE2_B42F,
    0x43CE_2156,
    0x37D5_AD81,
    0x4A9D_9330,
    0x3E86_1FE7,
    0xA2AA_8A9E,
    0xD6B1_0649,
    0xEEE8_2CBB,
    0x9AF3_A06C,
    0x06DF_3515,
    0x72C4_B9C2,
    0x766D_60F1,
    0x0276_EC26,
    0x9E5A_795F,
    0xEA41_F588,
    0xD218_DF7A,
    0xA603_53AD,
    0x3A2F_C6D4,
    0x4E34_4A03,
];

/// The check of `bytes`, by tables: the same value as that of [`crc`](crate::crc).
pub fn crc_fast(bytes: &[u8]) -> u32
    ensures { result ≡ crc_of bytes.now }
{
    crc_update(0, bytes)
}

/// The check of some bytes and of `more` after them, given the check of those before, by tables.
///
/// The check of no bytes is 0. So bytes that come in pieces are read once, with no buffer.
pub fn crc_update(check: u32, more: &[u8]) -> u32
    ensures exact { result ≡ crc_update check more.now }
    ensures joined { (before : List ℕ) → check ≡ crc_of before →
        result ≡ crc_of (before ++ more.now) }
{
    let mut register = check;
    let mut at = 0;
    'words: while more.len() - at >= 4 {
        register = with_word(register, word_at(more, at));
        at += 4;
    }
    with_bytes(register, &more[at..])
}

// The check after the bytes that are too few for a word.
fn with_bytes(start: u32, bytes: &[u8]) -> u32
    ensures { result ≡ crc_update start bytes.now }
{
    let mut register = start;
    for byte in bytes {
        register = with_byte(register, *byte);
    }
    register
}

// The register after the next byte: the eight highest bits with the byte added onto them have their
// remainder in the table, and the others move up.
fn with_byte(register: u32, byte: u8) -> u32
    ensures { let added = plus (bits_below 8 byte) (bits_below 32 register) in
        bits_below 32 result ≡ divide divisor 8 (added ++ zeros 8) }
{
    let highest = (register >> 24) as u8 ^ byte;
    (register << 8) ^ remainder_of(highest)
}

/// The remainder of one byte.
pub(crate) fn remainder_of(byte: u8) -> u32
    ensures { result ≡ slice_index REMAINDERS byte }
{
    REMAINDERS[usize::from(byte)]
}
