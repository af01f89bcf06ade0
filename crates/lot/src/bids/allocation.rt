// What each bid gets of the lot.
ghost use Rattle.lot.specs.Allocation.{takes_all, first_takes, down_to, allocations, AllocationLaw};
ghost use Rattle.lot.specs.Allotments.{numbers, parts_of};
ghost use Rattle.lot.specs.Bids.{whole};
ghost use Rattle.lot.specs.Lots.{entries_of};
ghost use Rattle.lot.specs.Rungs.{rung};
ghost use Rattle.lot.specs.declared.bid.Whose.TheVariants.{Everyone};
ghost use Rattle.std.specs.List.{position};
ghost use Rattle.std.specs.Prelude.{◌≡◌, map, take};

use super::Bids;
use super::entering::WHOLE;
use super::rung::Rung;
use crate::allocations::Allocations;
use crate::bid::{Bid, Kind, Level, Price, Whose};
use share::rule::share;
use share::units::Parts;

impl Bid {
    // Whether this is an All or Nothing bid at a price.
    fn takes_all(&self, price: Price) -> bool
        ensures { result ≡ takes_all price self.now }
    {
        !self.is_standard() && self.price == price
    }
}

impl Bids {
    // The place of the earliest entered All or Nothing bid at a price.
    fn taker(&self, price: Price) -> Option<usize>
        ensures { result ≡ position (takes_all price) (entries_of self.now) }
    {
        self.entries().iter().position(|bid| bid.takes_all(price))
    }

    // All to the earliest entered All or Nothing bid at a price.
    fn first_takes(&self, price: Price) -> [Parts; 64]
        ensures { numbers (take self.now.count result) ≡ first_takes price (entries_of self.now) }
    {
        let mut parts = [Parts(0); 64];
        if let Some(place) = self.taker(price) {
            parts[place] = Parts(WHOLE);
        }
        parts
    }

    // What each Standard bid has above a price and at it. Not by the array's `map`, which would go over all 64 places and move each in and out.
    fn rungs(&self, price: Price) -> [Rung; 64]
        ensures { take self.now.count result ≡ map (rung price) (entries_of self.now) }
    {
        let bids = self.entries();
        let mut rungs = [Rung::default(); 64];
        for (i, rung) in rungs[..bids.len()].iter_mut().enumerate() {
            *rung = Rung {
                above: Parts(Whose::Everyone.asked(Level::Above(price), &bids[i])),
                tied: Parts(Whose::Everyone.asked(Level::Exactly(price), &bids[i])),
            };
        }
        rungs
    }

    // Their size to the Standard bids above a price, and shares of the rest to those at it.
    fn down_to(&self, price: Price) -> [Parts; 64]
        ensures { numbers (take self.now.count result) ≡ down_to Everyone whole price (entries_of self.now) }
    {
        let rungs = self.rungs(price);
        let rungs = &rungs[..self.count];
        let rest = WHOLE.saturating_sub(self.asked(Whose::Everyone, Level::Above(price)));
        let mut parts = [Parts(0); 64];
        // By place: the share rule asks for it; through iter_mut the rungs would be indexed in its stead.
        for (i, rung) in rungs.iter().enumerate() {
            let own = share(u64::from(rest), rungs, i);
            parts[i] = Parts(rung.above.0 + own as u32);
        }
        parts
    }

    // What each bid gets, in entry order.
    pub fn allocations(&self) -> Allocations
        ensures value { parts_of result ≡ allocations (entries_of self.now) }
        ensures law { AllocationLaw (entries_of self.now) (parts_of result) }
    {
        let parts = match self.clearing() {
            None => [Parts(0); 64],
            Some(cleared) => match cleared.by {
                Kind::Standard => self.down_to(cleared.price),
                Kind::AllOrNothing => self.first_takes(cleared.price),
            },
        };
        Allocations::first(self.count, parts)
    }
}
