// A bid and its parts.
ghost use Rattle.lot.specs.Bids.{all_or_nothing_of, asked, is_of, is_standard, meets};
ghost use Rattle.std.specs.Prelude.{◌≡◌};

use share::units::Parts;

// A price in dollars for the whole lot, negative where the clearing house pays. The greater is the more competitive.
#[derive(Clone, Copy, PartialEq, Eq, PartialOrd, Ord, Debug)]
pub struct Price(pub i32);

#[derive(Clone, Copy, PartialEq, Eq, Debug)]
pub enum Kind {
    Standard,
    AllOrNothing,
}

// A member's bid for parts of a lot.
#[derive(Clone, Copy, PartialEq, Eq, Debug)]
pub struct Bid {
    pub member: u16,
    pub kind: Kind,
    pub size: Parts,
    pub price: Price,
}

// Whose bids are meant. An enum and no closure, since the definitions speak of it too.
#[derive(Clone, Copy, PartialEq, Eq, Debug)]
pub enum Whose {
    Everyone,
    One(u16),
}

// At which prices bids are meant.
#[derive(Clone, Copy, PartialEq, Eq, Debug)]
pub enum Level {
    AtOrBetter(Price),
    Above(Price),
    Exactly(Price),
}

impl Level {
    // Whether a price is one of those that are meant.
    fn meets(self, price: Price) -> bool
        ensures { result ≡ meets self price }
    {
        match self {
            Level::AtOrBetter(p) => p <= price,
            Level::Above(p) => p < price,
            Level::Exactly(p) => p == price,
        }
    }
}

impl Whose {
    // Whether a bid is one of those that are meant.
    pub(crate) fn has(self, bid: &Bid) -> bool
        ensures { result ≡ is_of self bid.now }
    {
        match self {
            Whose::Everyone => true,
            Whose::One(member) => bid.member == member,
        }
    }

    // The parts that a bid asks for: its size if it is a Standard bid of theirs at a price that is meant.
    pub(crate) fn asked(self, level: Level, bid: &Bid) -> u32
        ensures { result ≡ asked self level bid.now }
    {
        if bid.is_standard() && self.has(bid) && level.meets(bid.price) {
            bid.size.0
        } else {
            0
        }
    }

    // Whether a bid is an All or Nothing bid of theirs.
    pub(crate) fn has_all_or_nothing(self, bid: &Bid) -> bool
        ensures { result ≡ all_or_nothing_of self bid.now }
    {
        !bid.is_standard() && self.has(bid)
    }
}

impl Bid {
    pub(crate) fn is_standard(&self) -> bool
        ensures { result ≡ is_standard self.now }
    {
        self.kind == Kind::Standard
    }
}
