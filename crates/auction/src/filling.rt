// What each member brings to the pools. The structs stand alone here.
ghost use Rattle.auction.specs.Brought.{weights_over, WithinLimits};
ghost use Rattle.std.specs.Prelude.{◌≡◌, length};

use share::units::Dollars;

pub mod columns;

// Which of a member's amounts fills a seat: funds fill seats 1 to 3, assessments seats 5 to 7.
#[derive(Clone, Copy, PartialEq, Eq, Debug)]
pub enum Money {
    Fund,
    Assessment,
}

// Which part of it: all of a Non-bidding member's, the subordinate parts, or the senior parts.
#[derive(Clone, Copy, PartialEq, Eq, Debug)]
pub enum Tier {
    First,
    Second,
    Third,
}

// One amount by the seats that it fills.
#[derive(Clone, Copy, PartialEq, Eq, Default, Debug)]
pub struct Tiers {
    pub first: Dollars,
    pub second: Dollars,
    pub third: Dollars,
}

// What a member brings.
#[derive(Clone, Copy, PartialEq, Eq, Default, Debug)]
pub struct Brought {
    pub fund: Tiers,
    pub assessment: Tiers,
}

// What becomes of an auction: how many lots fail, and what its members bring to the pools.
#[derive(Clone, Copy)]
pub struct Outcome {
    pub failed: u16,
    pub filling: Filling,
}

// What each member number brings, in number order: to no pool more than a fund or an assessment may be.
#[derive(Clone, Copy)]
pub struct Filling {
    rows: [Brought; 32],
    ghost whole: { length rows ≡ 32 },
    ghost limits: { WithinLimits (weights_over rows) },
}
