//! Draws: numbers that follow from a seed.

ghost use Rattle.std.specs.Prelude.{◌<◌};

/// A row of draws.
#[derive(Drop)]
pub struct Draws {
    /// What the next draw comes from: at first the seed.
    pub state: u64,
}

impl Draws {
    // The next draw.
    fn draw(&mut self) -> u32 {
        self.state = self
            .state
            .wrapping_mul(6_364_136_223_846_793_005)
            .wrapping_add(1_442_695_040_888_963_407);
        (self.state >> 32) as u32
    }

    /// A number below this one, or 0 where this is 0.
    pub fn below(&mut self, bound: u32) -> u32
        ensures { 0 < bound → result < bound }
    {
        let drawn = self.draw();
        if bound == 0 {
            return 0;
        }
        drawn % bound
    }

    /// A byte below this one, or 0 where this is 0.
    pub fn byte_below(&mut self, bound: u8) -> u8 {
        if bound == 0 {
            return 0;
        }
        self.below(u32::from(bound)) as u8
    }
}
