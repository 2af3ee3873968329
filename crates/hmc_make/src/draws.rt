//! Draws.

ghost use Rattle.std.specs.Prelude.{◌≡◌, ◌<◌, ◌^◌};
ghost use Rattle.hmc_make.specs.Draws.{next, drawn};

/// The state of the draws.
#[derive(Drop)]
pub struct Draws {
    pub state: u64,
}

impl Draws {
    /// One draw.
    #[tactic(auto, unfolding(crate::specs::Draws::next, crate::specs::Draws::drawn))]
    pub fn draw(&mut self) -> u32
        ensures drawn { result ≡ drawn self.old.state }
        ensures state { self.new.state ≡ next self.old.state }
    {
        self.state = self
            .state
            .wrapping_mul(6_364_136_223_846_793_005)
            .wrapping_add(1_442_695_040_888_963_407);
        (self.state >> 32) as u32
    }
}
