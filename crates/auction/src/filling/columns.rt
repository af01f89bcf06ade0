// The weights of one pool.
ghost use Rattle.auction.specs.Brought.{in_tier, amount_in, weights_over, WithinLimits};
ghost use Rattle.auction.specs.Filling.{column_of, numbers_of, rows_of};
ghost use Rattle.std.specs.Prelude.{◌≡◌, length};

use super::{Brought, Filling, Money, Tier, Tiers};
use share::units::Dollars;
use std::array;

impl Tiers {
    // What of the amount is in a tier.
    fn at(&self, tier: Tier) -> Dollars
        ensures { result.0 ≡ in_tier tier self.now }
    {
        match tier {
            Tier::First => self.first,
            Tier::Second => self.second,
            Tier::Third => self.third,
        }
    }
}

impl Brought {
    // The amount that is meant, by its tiers.
    fn at(&self, money: Money, tier: Tier) -> Dollars
        ensures { result.0 ≡ amount_in money tier self.now }
    {
        match money {
            Money::Fund => self.fund.at(tier),
            Money::Assessment => self.assessment.at(tier),
        }
    }
}

impl Filling {
    // What each of the member numbers brings, none of them too much.
    pub(crate) fn of(rows: [Brought; 32]) -> Filling
        requires { WithinLimits (weights_over rows) }
        ensures { rows_of result ≡ rows }
    {
        Filling { rows }
    }

    // What each member brings to one pool, in number order. Not by the array's `map`, which would move each row in and out.
    pub fn column(&self, money: Money, tier: Tier) -> [Dollars; 32]
        ensures value { numbers_of result ≡ column_of money tier self.now }
        ensures len { length result ≡ 32 }
    {
        array::from_fn(|i| self.rows[i].at(money, tier))
    }
}
