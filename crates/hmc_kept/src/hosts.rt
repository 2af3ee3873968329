//! What hosts show at the end, by their numbers.

ghost use Rattle.std.specs.Prelude.{◌≡◌, ◌<◌, length, slice_get};
ghost use Rattle.hmc_kept.specs.Hosts.{out_of, host_counts_of};

use hmc_codes::HostCounts;
use hmc_host::Host;
use hmc_tally::Tally;

/// What is counted of the host with this number.
pub fn counts_of_host(tally: &Tally, hosts: &[Host], number: u8) -> HostCounts
    requires { number < length tally.now.hosts }
    ensures { result ≡ host_counts_of tally.now hosts.now number }
{
    let steps = tally.host(number);
    HostCounts {
        given: steps.given,
        taken: steps.taken,
        out: tags_out(hosts, number),
    }
}

// How many tags of the host with this number are out; none of one that isn't there.
fn tags_out(hosts: &[Host], number: u8) -> u32
    ensures { result ≡ out_of (slice_get hosts.now number) }
{
    match hosts.get(usize::from(number)) {
        Some(host) => u32::from(host.out()),
        None => 0,
    }
}
