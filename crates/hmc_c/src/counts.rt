//! Counts, as C sees them.

ghost use Rattle.std.specs.Prelude.{◌≡◌};
ghost use Rattle.hmc_c.specs.Values.{counters_out, cube_out, host_out, tokens_out};

use hmc_codes::{Counters, CubeCounts, HostCounts, TokenRow};

/// The tokens of a direction. Their sum is the number that its receiving end advertises.
#[repr(C)]
#[derive(Drop)]
pub struct TokensOut {
    /// Tokens that its sender may still spend.
    pub held: u32,
    /// Flits of requests and responses that were begun and are not accepted yet.
    pub transit: u32,
    /// Flits of packets in the receiving buffer.
    pub used: u32,
    /// Tokens that the receiving end has to return.
    pub due: u32,
    /// Tokens in packets of the other direction that were begun and are not accepted yet.
    pub returning: u32,
}

/// The counts of a direction.
#[repr(C)]
#[derive(Drop)]
pub struct CountersOut {
    /// Flits sent.
    pub sent: u32,
    /// Flits landed.
    pub landed: u32,
    /// Of these, flits that a mask changed.
    pub changed: u32,
    /// Packets accepted, poisoned ones and returns of tokens included.
    pub accepted: u32,
    /// Packets that had been accepted before.
    pub repeats: u32,
    /// Landings with an error, and unlocks of a receiver that was in Good.
    pub aborts: u32,
}

/// The counts of a host.
#[repr(C)]
#[derive(Drop)]
pub struct HostOut {
    /// Requests given.
    pub given: u32,
    /// Answers taken.
    pub taken: u32,
    /// Tags out.
    pub out: u32,
}

/// The counts of a cube.
#[repr(C)]
#[derive(Drop)]
pub struct CubeOut {
    /// Requests executed.
    pub executed: u32,
    /// Poisoned packets dropped.
    pub dropped: u32,
}

/// The tokens as C sees them.
pub(crate) fn tokens_out(row: &TokenRow) -> TokensOut
    ensures { result ≡ tokens_out row.now }
{
    TokensOut {
        held: row.held,
        transit: row.transit,
        used: row.used,
        due: row.due,
        returning: row.returning,
    }
}

/// The counts of a direction as C sees them.
pub(crate) fn counters_out(counts: &Counters) -> CountersOut
    ensures { result ≡ counters_out counts.now }
{
    CountersOut {
        sent: counts.sent,
        landed: counts.landed,
        changed: counts.changed,
        accepted: counts.accepted,
        repeats: counts.repeats,
        aborts: counts.aborts,
    }
}

/// The counts of a host as C sees them.
pub(crate) fn host_out(counts: &HostCounts) -> HostOut
    ensures { result ≡ host_out counts.now }
{
    HostOut {
        given: counts.given,
        taken: counts.taken,
        out: counts.out,
    }
}

/// The counts of a cube as C sees them.
pub(crate) fn cube_out(counts: &CubeCounts) -> CubeOut
    ensures { result ≡ cube_out counts.now }
{
    CubeOut {
        executed: counts.executed,
        dropped: counts.dropped,
    }
}
