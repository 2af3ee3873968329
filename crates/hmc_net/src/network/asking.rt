//! Hosts that are asked for more requests while the network runs.

ghost use Rattle.std.specs.Prelude.{◌≡◌, ◌<◌, List, OnOk, OnErr, length};
ghost use Rattle.hmc_codes.specs.Limits.{most_asked};
ghost use Rattle.hmc_host.specs.Host.{asked_count};
ghost use Rattle.hmc_host.specs.Give.{is_at_end};
ghost use Rattle.hmc_entries.specs.declared.entry.Entry.{Entry};
ghost use Rattle.hmc_journal.specs.Setup.{Setup, cubes_in};
ghost use Rattle.hmc_growing.specs.Growing.{with_item, IsOpen};
ghost use Rattle.hmc_kept.specs.Hosts.{host_in};
ghost use Rattle.hmc_script.specs.Items.{asked_item};
ghost use Rattle.hmc_net.specs.Asked.{net_asked};
ghost use Rattle.hmc_net.specs.NetState.{net_of};
ghost use Rattle.hmc_net.specs.Stands.{StandsFor};

use crate::Network;
use hmc_codes::{Memory, Request};
use hmc_units::Workbench;

impl<B: Workbench> Network<B> {
    /// For how many requests this host was asked, those of the case's script among them.
    pub fn asked(&self, host: u8) -> u32
        requires { host < length self.now.hosts }
        ensures { result ≡ asked_count (host_in self.now.hosts host) }
    {
        self.hosts[usize::from(host)].asked()
    }

    /// Whether this host has given all of its requests.
    pub fn is_at_end(&self, host: u8) -> bool
        requires { host < length self.now.hosts }
        ensures { result ≡ is_at_end (host_in self.now.hosts host) }
    {
        self.hosts[usize::from(host)].is_at_end()
    }

    /// Asks this host for one request more, which it gives after its others. It was asked for fewer
    /// than `MOST_ASKED`. `Memory` if out of memory: then nothing changes.
    pub fn ask(
        &mut self,
        host: u8,
        fenced: bool,
        poisoned: bool,
        request: &Request,
    ) -> Result<(), Memory>
        requires there { host < length self.old.hosts }
        requires room { asked_count (host_in self.old.hosts host) < most_asked }

        // Where no entry says that the host has given all, the network stands for the case with
        // this request, and for the same journal.
        ensures stands { (setup : Setup) (past : List Entry) →
            StandsFor (net_of B.slots self.old) setup past → IsOpen host past →
            request.now.cube < cubes_in setup.topology →
            OnOk result (StandsFor (net_of B.slots self.new)
            (with_item setup (asked_item host fenced poisoned request.now)) past) }

        // The host has the request, and nothing else changes.
        ensures asks { (setup : Setup) (past : List Entry) →
            StandsFor (net_of B.slots self.old) setup past →
            OnOk result (net_of B.slots self.new
            ≡ net_asked (asked_item host fenced poisoned request.now) (net_of B.slots self.old)) }
        ensures err { OnErr result (net_of B.slots self.new ≡ net_of B.slots self.old) }
    {
        request.invariant();
        self.hosts[usize::from(host)].ask(fenced, poisoned, request)
    }
}
