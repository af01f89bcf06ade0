// What a member's BP is measured by: its distance from the lot's price, in the lot's price range.
ghost use Rattle.std.specs.Prelude.{◌≡◌, ◌+◌, ◌≤◌, Some};
ghost use Rattle.lot.specs.Class.{pri_refusal, senior_threshold, subordinate_threshold, by_price, class_of, split_part, senior_part};
ghost use Rattle.lot.specs.Ranges.{pri_of, dollars_of};
ghost use Rattle.lot.specs.declared.class.Class.TheVariants.{Split};
ghost use Rattle.share.specs.Refusals.{numbered, unless};

use super::Pri;
use crate::bid::Price;
use crate::class::{Class, Tranches};
use share::refusal::Refusal;
use share::units::{Dollars, Parts};

pub const MOST_PRI: u32 = 2_000_000_000;

impl Pri {
    // A price range, unless it is odd or outside its limits.
    pub fn new(dollars: u32) -> Result<Pri, Refusal>
        ensures { dollars_of (numbered result) ≡ unless (pri_refusal dollars) dollars }
    {
        if dollars % 2 != 0 || !(2..=MOST_PRI).contains(&dollars) {
            return Err(Refusal::LotTerms);
        }
        Ok(Pri { dollars })
    }

    // The least price range.
    pub fn least() -> Pri
        ensures { pri_of result ≡ 2 }
    {
        Pri { dollars: 2 }
    }

    // Half a PRI below the lot's price.
    pub fn senior_threshold(self, price: Price) -> i64
        ensures { result ≡ senior_threshold price.0 (pri_of self) }
    {
        i64::from(price.0) - i64::from(self.dollars / 2)
    }

    // One PRI below the senior threshold.
    pub fn subordinate_threshold(self, price: Price) -> i64
        ensures { result ≡ subordinate_threshold price.0 (pri_of self) }
    {
        self.senior_threshold(price) - i64::from(self.dollars)
    }

    // The class of a member with a requirement and perhaps a BP, in a lot at a price.
    pub fn class(self, price: Price, requirement: Parts, bp: Option<Price>) -> Class
        ensures { result ≡ class_of price (pri_of self) requirement.0 bp }
    {
        let Some(bp) = bp else {
            return if requirement.0 == 0 {
                Class::Excused
            } else {
                Class::NonBidding
            };
        };
        if self.senior_threshold(price) < i64::from(bp.0) {
            Class::Senior
        } else if i64::from(bp.0) < self.subordinate_threshold(price) {
            Class::Subordinate
        } else {
            Class::Split
        }
    }

    // A Split's senior part: amount × (BP − the subordinate threshold) ÷ PRI, rounded down.
    fn split_part(self, price: Price, bp: Price, amount: Dollars) -> Dollars
        requires { by_price price.0 (pri_of self) bp.0 ≡ Split }
        ensures value { result.0 ≡ split_part price (pri_of self) (Some bp) amount.0 }
        ensures bound { result.0 ≤ amount.0 }
    {
        let above = i64::from(bp.0) - self.subordinate_threshold(price);
        let part = u128::from(amount.0) * above as u128 / u128::from(self.dollars);
        Dollars(part as u64)
    }

    // The senior part of an amount by class, and the rest.
    pub fn tranches(
        self,
        price: Price,
        requirement: Parts,
        bp: Option<Price>,
        amount: Dollars,
    ) -> Tranches
        ensures value { result.senior.0 ≡ senior_part price (pri_of self) requirement.0 bp amount.0 }
        ensures rest { result.senior.0 + result.subordinate.0 ≡ amount.0 }
    {
        let senior = match (self.class(price, requirement, bp), bp) {
            (Class::Senior | Class::Excused, _) => amount,
            (Class::Split, Some(bp)) => self.split_part(price, bp, amount),
            _ => Dollars(0),
        };
        Tranches {
            senior,
            subordinate: amount - senior,
        }
    }
}
