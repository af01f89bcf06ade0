// The price of a lot.
ghost use Rattle.lot.specs.Lots.{entries_of};
ghost use Rattle.lot.specs.Bids.{all_asked};
ghost use Rattle.lot.specs.Price.{reaches, reached, all_or_nothing_price, clearing, price_of, lot_price, IsGreatest, PriceLaw};
ghost use Rattle.std.specs.Fn.{FnReturnsAt};
ghost use Rattle.std.specs.Prelude.{◌≡◌};

use super::Bids;
use super::entering::WHOLE;
use crate::bid::{Bid, Kind, Level, Price, Whose};

// How a lot is cleared: at which price, and which kind of bid sets it.
#[derive(Clone, Copy, PartialEq, Eq, Debug)]
pub struct Cleared {
    pub price: Price,
    pub by: Kind,
}

impl Bids {
    // The parts that their Standard bids ask for at the prices that are meant.
    pub(crate) fn asked(&self, whose: Whose, level: Level) -> u32
        ensures { result ≡ all_asked whose level (entries_of self.now) }
    {
        self.entries()
            .iter()
            .map(|bid| whose.asked(level, bid))
            .sum()
    }

    // Whether a bid is a Standard bid of theirs at whose price these bids reach a number of parts.
    fn reaches(&self, whose: Whose, parts: u32, bid: &Bid) -> bool
        ensures { result ≡ reaches whose parts (entries_of self.now) bid.now }
    {
        bid.is_standard()
            && whose.has(bid)
            && parts <= self.asked(whose, Level::AtOrBetter(bid.price))
    }

    // The greatest price of the bids that pass a test.
    fn greatest<F: Fn(&Bid) -> bool>(&self, passes: F) -> Option<Price>
        requires { F.IsAlwaysCallable passes }
        ensures { IsGreatest (FnReturnsAt F.Fn passes) (entries_of self.now) result }
    {
        self.entries()
            .iter()
            .filter(|bid| passes(bid))
            .map(|bid| bid.price)
            .max()
    }

    // The greatest price of their Standard bids at which these reach a number of parts.
    pub(crate) fn reached(&self, whose: Whose, parts: u32) -> Option<Price>
        ensures { result ≡ reached whose parts (entries_of self.now) }
    {
        self.greatest(|bid| self.reaches(whose, parts, bid))
    }

    // The greatest price of their All or Nothing bids.
    pub(crate) fn all_or_nothing_price(&self, whose: Whose) -> Option<Price>
        ensures { result ≡ all_or_nothing_price whose (entries_of self.now) }
    {
        self.greatest(|bid| whose.has_all_or_nothing(bid))
    }

    // How the lot is cleared; none where it fails. The kind is All or Nothing if its price is at least the Standard price or stands alone.
    pub fn clearing(&self) -> Option<Cleared>
        ensures value { result ≡ clearing (entries_of self.now) }
        ensures price { price_of result ≡ lot_price (entries_of self.now) }
    {
        let standard = self.reached(Whose::Everyone, WHOLE);
        let all = self.all_or_nothing_price(Whose::Everyone);
        let by = if all < standard {
            Kind::Standard
        } else {
            Kind::AllOrNothing
        };
        let price = standard.max(all)?;
        Some(Cleared { price, by })
    }

    // The lot's price; the lot fails where there is none.
    pub fn price(&self) -> Option<Price>
        ensures value { result ≡ lot_price (entries_of self.now) }
        ensures law { PriceLaw (entries_of self.now) result }
    {
        self.clearing().map(|cleared| cleared.price)
    }
}
