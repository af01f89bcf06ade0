// The classes that a member's bids earn it in a lot.
use share::units::Dollars;

#[derive(Clone, Copy, PartialEq, Eq, Debug)]
pub enum Class {
    Senior,
    Split,
    Subordinate,
    Excused,
    NonBidding,
}

// An amount taken apart by class.
#[derive(Clone, Copy, PartialEq, Eq, Debug)]
pub struct Tranches {
    pub senior: Dollars,
    pub subordinate: Dollars,
}
