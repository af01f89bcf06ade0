// A bid's place on the ladder of prices.
use share::rule::Weighted;
use share::units::Parts;

// What a bid has above a price and what it has at it: at most one of them is not 0. Those at the price share by their parts.
#[derive(Clone, Copy, Default)]
pub struct Rung {
    pub above: Parts,
    pub tied: Parts,
}

impl Weighted for Rung {
    ghost heft = { λ r. r.tied.0 };

    fn weight(&self) -> u64 {
        u64::from(self.tied.0)
    }
}
