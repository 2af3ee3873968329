//! The library for C: sessions behind handles, and the check of packets.
//!
//! A handle begins as zeros, and is closed. `hmc_open` opens it on a session of a case; each other
//! call works on the session that is there, and says by its status what became of the call. An
//! error changes nothing. No call keeps a pointer of the caller's, and nothing is global.
#![tactic(auto)]

// Does something with what a handle has, and puts it back; what is done says the status. A closed
// handle has nothing.
macro_rules! with_held {
    ($alloc:expr, $handle:expr, |$held:ident| $status:expr) => {{
        let Some(mut $held) = $crate::handle::taken($alloc, $handle) else {
            return $crate::status::CLOSED;
        };
        let status = $status;
        $crate::handle::put($handle, $held);
        status
    }};
}

mod asking;
mod away;
mod codec;
mod counts;
mod entry;
mod faults;
mod final_lines;
mod handle;
mod held;
mod kept;
mod laws;
mod laying;
mod left;
mod lines;
mod loose;
mod opening;
mod report;
mod reports;
mod requests;
mod showing;
mod status;
mod steps;
mod tape;
mod units;

pub use asking::hmc_ask;
pub use away::{hmc_drain_bound, hmc_drained, hmc_under_way};
pub use codec::{hmc_crc, hmc_read, hmc_spell, hmc_version};
pub use counts::{CountersOut, CubeOut, HostOut, TokensOut};
pub use entry::{EntryOut, hmc_entry};
pub use faults::{FaultOut, hmc_ask_fault, hmc_fault, hmc_lay_fault};
pub use final_lines::hmc_final_line;
pub use handle::Handle;
pub use laws::{a_bit_stands_for_a_kind, a_laid_step_is_known};
pub use laying::{hmc_lay, hmc_next, hmc_run};
pub use left::{hmc_block, hmc_counters, hmc_cube, hmc_host, hmc_register, hmc_tokens};
pub use lines::hmc_line;
pub use opening::{hmc_close, hmc_open, hmc_open_taped, hmc_open_with};
pub use reports::{hmc_check, hmc_run_case};
pub use requests::hmc_request;
pub use steps::{hmc_finish, hmc_step};
pub use tape::{hmc_tape_schedule, hmc_tape_script};
pub use units::UnitIn;
