//! The limits of cases and runs. Each number is here, and for contracts in specs/Limits, and in no
//! other file.

/// The cubes of a case.
pub const MOST_CUBES: u8 = 8;

/// The links of a case.
pub const MOST_LINKS: u8 = 32;

/// The hosts of a case.
pub const MOST_HOSTS: u8 = 8;

/// The ports of a cube.
pub const PORTS: u8 = 4;

/// The greatest `vault_bits` of a cube.
pub const MOST_VAULT_BITS: u8 = 5;

/// The greatest `bank_bits` of a cube.
pub const MOST_BANK_BITS: u8 = 4;

/// The rows of a bank.
pub const MOST_ROWS: u16 = 1024;

/// The bytes of all cubes together.
pub const MOST_MEMORY: u64 = 16_777_216;

/// The bytes of a block of the address map.
pub const MOST_BLOCK: u16 = 256;

/// The bytes of a flit, and of a piece of memory that is read or written at once.
pub const PIECE: usize = 16;

/// The packets of a queue in a cube, and of an output queue.
pub const MOST_QUEUE: u8 = 64;

/// The flits of a line.
pub const MOST_LINE: u8 = 64;

/// The least tokens and the least flits of a retry buffer: the flits of the longest packet.
pub const LEAST_FLITS: u16 = 17;

/// The tokens that the end of a link advertises.
pub const MOST_TOKENS: u16 = 1024;

/// The tags of a host.
pub const TAGS: u16 = 2048;

/// The requests of a script.
pub const MOST_REQUESTS: u32 = 65_536;

/// The steps of a schedule, with its rounds written out.
pub const MOST_STEPS: u32 = 1_000_000;

/// The bytes of an input.
pub const MOST_INPUT: usize = 4_194_304;

/// The bytes of an input of `check`: a case and a report.
pub const MOST_CHECK_INPUT: usize = 67_108_864;

/// The requests that a list in memory has, and that a host is asked for.
pub const MOST_ASKED: u32 = 4_294_967_295;

/// The steps of a session.
pub const MOST_TAKEN: u32 = 4_294_967_295;
