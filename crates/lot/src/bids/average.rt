// The average price of a member in the lot, its BP.
ghost use Rattle.std.specs.Prelude.{◌≡◌, ◌<◌, pos, Some};
ghost use Rattle.lot.specs.Average.{worth_above, all_worth_above, worth_down_to, average, averaged, best_price, AverageLaw};
ghost use Rattle.lot.specs.Lots.{entries_of};
ghost use Rattle.lot.specs.Price.{reached};
ghost use Rattle.std.specs.Int.{int_div_euclid};
ghost use Rattle.lot.specs.declared.bid.Whose.TheVariants.{One};

use super::Bids;
use crate::bid::{Bid, Level, Price, Whose};
use share::units::Parts;

// A sum over some parts divided by their number, rounded down toward minus infinity.
// That the parts are some is asked here and below: `best_price` sees to it once, and a type for it would be taken apart in each clause.
fn mean(worth: i64, parts: u32) -> i64
    requires { 0 < parts }
    ensures { result ≡ int_div_euclid worth (pos parts) }
{
    worth.div_euclid(i64::from(parts))
}

impl Whose {
    // Price × parts of a bid that is above a price.
    fn worth_above(self, price: Price, bid: &Bid) -> i64
        ensures { result ≡ worth_above self price bid.now }
    {
        i64::from(bid.price.0) * i64::from(self.asked(Level::Above(price), bid))
    }
}

impl Bids {
    // Price × parts over all their parts above a price. This and `asked` sum numbers of two types; one function for both would be the chain again.
    fn worth_above(&self, whose: Whose, price: Price) -> i64
        ensures { result ≡ all_worth_above whose price (entries_of self.now) }
    {
        self.entries()
            .iter()
            .map(|bid| whose.worth_above(price, bid))
            .sum()
    }

    // Price × parts over their best `parts` parts, where `last` is the price at which their Standard bids reach as many.
    fn worth_down_to(&self, whose: Whose, parts: u32, last: Price) -> i64
        requires some { 0 < parts }
        requires reaches { reached whose parts (entries_of self.now) ≡ Some last }
        ensures { result ≡ worth_down_to whose parts (entries_of self.now) last }
    {
        let rest = parts - self.asked(whose, Level::Above(last));
        self.worth_above(whose, last) + i64::from(last.0) * i64::from(rest)
    }

    // The average price of their best `parts` parts, where their Standard bids reach as many.
    fn average(&self, whose: Whose, parts: u32) -> Option<Price>
        requires { 0 < parts }
        ensures value { result ≡ average whose parts (entries_of self.now) }
        ensures law { AverageLaw whose parts (entries_of self.now) result }
    {
        let Some(last) = self.reached(whose, parts) else {
            return None;
        };
        let worth = self.worth_down_to(whose, parts, last);
        Some(Price(mean(worth, parts) as i32))
    }

    // A member's BP for a requirement: the greater of its average and the price of its All or Nothing bid, of those that count.
    pub fn best_price(&self, member: u16, requirement: Parts) -> Option<Price>
        ensures value { result ≡ best_price member requirement.0 (entries_of self.now) }
        ensures law { AverageLaw (One member) (averaged requirement.0) (entries_of self.now) (average (One member) (averaged requirement.0) (entries_of self.now)) }
    {
        let whose = Whose::One(member);
        let parts = requirement.0.max(1);
        self.average(whose, parts)
            .max(self.all_or_nothing_price(whose))
    }
}
