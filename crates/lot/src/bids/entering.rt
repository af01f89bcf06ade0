// Which bids a lot takes.
ghost use Rattle.std.specs.Prelude.{◌≡◌, ◌+◌, [], length};
ghost use Rattle.lot.specs.Entering.{refusal, entered};
ghost use Rattle.lot.specs.Lots.{entries_of};
ghost use Rattle.share.specs.Refusals.{numbered, unless};

use super::Bids;
use crate::bid::{Bid, Kind, Price, Whose};
use share::refusal::Refusal;
use share::units::Parts;

pub const MOST_BIDS: usize = 64;

pub const MOST_MEMBERS: u16 = 32;

pub const WHOLE: u32 = 10_000;

pub const HIGHEST: i32 = 2_000_000_000;

pub const LOWEST: i32 = -2_000_000_000;

impl Bids {
    // A lot without bids.
    pub fn new() -> Bids
        ensures { entries_of result ≡ [] }
    {
        let none = Bid {
            member: 0,
            kind: Kind::Standard,
            size: Parts(0),
            price: Price(0),
        };
        Bids {
            entries: [none; 64],
            count: 0,
        }
    }

    // The bids in entry order.
    pub fn entries(&self) -> &[Bid]
        ensures { result.now ≡ entries_of self.now }
    {
        &self.entries[..self.count]
    }

    // Whether the lot would take a bid, and if not why.
    pub fn admits(&self, bid: &Bid) -> Result<(), Refusal>
        ensures { numbered result ≡ unless (refusal (entries_of self.now) bid.now) tt }
    {
        if !(1..=MOST_MEMBERS).contains(&bid.member) {
            return Err(Refusal::OutOfRange);
        }
        if !(1..=WHOLE).contains(&bid.size.0) || !(LOWEST..=HIGHEST).contains(&bid.price.0) {
            return Err(Refusal::OutsideLimits);
        }
        if !bid.is_standard() && bid.size.0 != WHOLE {
            return Err(Refusal::AllOrNothingSize);
        }
        if !bid.is_standard() && self.all_or_nothing_price(Whose::One(bid.member)).is_some() {
            return Err(Refusal::SecondAllOrNothing);
        }
        if self.count >= MOST_BIDS {
            return Err(Refusal::LotFull);
        }
        Ok(())
    }

    // Takes a bid in, and answers its entry number.
    pub fn enter(&mut self, bid: Bid) -> Result<u16, Refusal>
        ensures answer { numbered result ≡ unless (refusal (entries_of self.old) bid) (length (entries_of self.old) + 1) }
        ensures after { entries_of self.new ≡ entered (entries_of self.old) bid }
    {
        self.admits(&bid)?;
        self.entries[self.count] = bid;
        self.count += 1;
        Ok(self.count as u16)
    }
}
