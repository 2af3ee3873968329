//! What a run shows of its end.

ghost use Rattle.std.specs.Prelude.{◌≡◌, ◌<◌, ◌≤◌, ◌+◌, ◌%◌, ◌^◌, length, slice_get, slice_range};
ghost use Rattle.hmc_report.specs.Final.{FinalValues};

use hmc_codes::{Counters, CubeCounts, HostCounts, TokenRow};

/// What the final lines say of a network. Cubes, directions and hosts are numbered from 0, and
/// each call names one that is there.
pub trait Finished {
    /// What the network shows.
    ghost final_values: { Self → FinalValues };

    /// The number of cubes.
    fn cubes(&self) -> u8
        ensures { result ≡ (final_values self.now).cubes };

    /// The number of directions, two for each link.
    fn directions(&self) -> u8
        ensures { result ≡ (final_values self.now).directions };

    /// The number of hosts.
    fn hosts(&self) -> u8
        ensures { result ≡ (final_values self.now).hosts };

    /// The bytes of a cube's memory: a multiple of 16, at most 134,217,728.
    fn capacity(&self, cube: u8) -> u64
        requires { cube < (final_values self.now).cubes }
        ensures capacity { result ≡ length ((final_values self.now).memory cube) }
        ensures blocks { result % 16 ≡ 0 }
        ensures most { result ≤ 2 ^ 27 };

    /// The 16 bytes of a cube's memory at a multiple of 16.
    fn get16(&self, cube: u8, place: u64) -> [u8; 16]
        requires cube { cube < (final_values self.now).cubes }
        requires multiple { place % 16 ≡ 0 }
        requires inside { place < length ((final_values self.now).memory cube) }
        ensures { result ≡ slice_range ((final_values self.now).memory cube) place (place + 16) };

    /// The value of a cube's register, 0 to 15. `None` if there is none with this number.
    fn register(&self, cube: u8, number: u64) -> Option<u32>
        requires { cube < (final_values self.now).cubes }
        ensures value { result ≡ slice_get ((final_values self.now).registers cube) number }
        ensures sixteen { length ((final_values self.now).registers cube) ≡ 16 };

    /// The tokens of a direction.
    fn tokens(&self, direction: u8) -> TokenRow
        requires { direction < (final_values self.now).directions }
        ensures { result ≡ (final_values self.now).tokens direction };

    /// What is counted of a direction.
    fn counters(&self, direction: u8) -> Counters
        requires { direction < (final_values self.now).directions }
        ensures { result ≡ (final_values self.now).counters direction };

    /// What is counted of a host.
    fn host_counts(&self, host: u8) -> HostCounts
        requires { host < (final_values self.now).hosts }
        ensures { result ≡ (final_values self.now).host_counts host };

    /// What is counted of a cube.
    fn cube_counts(&self, cube: u8) -> CubeCounts
        requires { cube < (final_values self.now).cubes }
        ensures { result ≡ (final_values self.now).cube_counts cube };

    /// Whether nothing is on its way.
    fn drained(&self) -> bool
        ensures { result ≡ (final_values self.now).drained };
}
