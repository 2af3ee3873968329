//! The units that execute requests.

/// What executes a request: a bank, or the registers of a cube.
#[derive(Clone, Copy, PartialEq, Eq)]
pub enum Unit {
    /// A bank, by the numbers of its cube (below 8), of its vault in the cube (below 32) and of the
    /// bank in the vault (below 16).
    Bank { cube: u8, vault: u8, bank: u8 },
    /// The registers of a cube, by its number (below 8).
    Registers { cube: u8 },
}
