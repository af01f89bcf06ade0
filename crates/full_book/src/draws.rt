// Pseudo-random numbers.
ghost use Rattle.std.specs.Prelude.{◌<◌};

// A linear congruential generator.
#[derive(Clone, Copy)]
pub(crate) struct Draws(pub u64);

impl Draws {
    // One of the numbers from 0 to most − 1.
    pub(crate) fn below(&mut self, most: u32) -> u32
        requires { 0 < most }
        ensures { result < most }
    {
        self.0 = self
            .0
            .wrapping_mul(6_364_136_223_846_793_005)
            .wrapping_add(1_442_695_040_888_963_407);
        (self.0 >> 33) as u32 % most
    }
}
