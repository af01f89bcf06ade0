// The six pools of an auction.
ghost use Rattle.std.specs.Prelude.{◌≡◌, ◌+◌, ◌-◌, ◌<◌, ◌≤◌, length};
ghost use Rattle.auction.specs.Filling.{column_of, weights_by};
ghost use Rattle.auction.specs.declared.filling.Tier.TheVariants.{First, Second, Third};
ghost use Rattle.book.specs.Standing.{borne_by, fresh_stakes, InSeat};
ghost use Rattle.book.specs.State.{all_idle, pools_borne, pools_capacity, pools_standing, poured, stake_of, stakes_of};
ghost use Rattle.resource.specs.Payers.{weights_of, Light};
ghost use Rattle.resource.specs.Pools.{capacity_of, fresh, payers_of, standing_of};
ghost use Rattle.share.specs.Rule.{share_of};

use auction::filling::{Filling, Money, Tier};
use auction::member::Member;
use resource::pool::Pool;
use resource::resource::Resource;
use share::units::Dollars;

// The pools of one money, the members' funds or their assessments, by tier.
#[derive(Clone, Copy)]
pub struct Pools {
    pub first: Pool,
    pub second: Pool,
    pub third: Pool,
}

// The pools of an auction: those of the funds are in seats 1 to 3, those of the assessments in seats 5 to 7. The house is in seat 4.
#[derive(Clone, Copy)]
pub struct Seats {
    pub funds: Pools,
    pub assessments: Pools,
}

// A pool over all member numbers.
fn pool(weights: &[Dollars]) -> Pool
    requires all { length weights.now ≡ 32 }
    requires light { Light (weights_of weights.now) }
    ensures { stake_of result ≡ fresh (weights_of weights.now) }
{
    Pool::new(weights).unwrap()
}

// A pool with what each member brings to it.
fn brought(filling: &Filling, money: Money, tier: Tier) -> Pool
    ensures { stake_of result ≡ fresh (column_of money tier filling.now) }
{
    pool(&filling.column(money, tier))
}

// Has a pool stand for what it can of what is left of a loss, and says what it leaves. `fill` of any resource does not promise that the payers stay.
pub(crate) fn pour(pool: &mut Pool, left: Dollars) -> Dollars
    ensures rest { result.0 ≡ left.0 - capacity_of pool.old }
    ensures after { stake_of pool.new ≡ poured pool.old left.0 }
{
    let stands = pool.capacity().min(left);
    let _ = pool.stand_at(stands);
    left - stands
}

// What a member bears in a pool. Numbers count from 1; a type that says so would only be made here, from the plain number that a call hands over.
pub(crate) fn borne(pool: &Pool, member: u16) -> Dollars
    requires { 0 < member }
    ensures value { result.0 ≡ share_of (standing_of pool.now) (payers_of pool.now) (member - 1) }
    ensures bound { result.0 ≤ 3200000000 }
{
    pool.bears(member).unwrap_or_default()
}

impl Pools {
    // Pools with what each member brings of a money.
    fn filled(filling: &Filling, money: Money) -> Pools
        ensures first { stake_of result.first ≡ fresh (column_of money First filling.now) }
        ensures second { stake_of result.second ≡ fresh (column_of money Second filling.now) }
        ensures third { stake_of result.third ≡ fresh (column_of money Third filling.now) }
    {
        Pools {
            first: brought(filling, money, Tier::First),
            second: brought(filling, money, Tier::Second),
            third: brought(filling, money, Tier::Third),
        }
    }

    // Their capacity. This and `standing` differ in the method that they call, and a closure would be no plainer; the sum is one of numbers, of which the search knows the bound.
    pub(crate) fn capacity(&self) -> Dollars
        ensures value { result.0 ≡ pools_capacity self.now }
        ensures bound { result.0 ≤ 9600000000 }
    {
        Dollars(self.first.capacity().0 + self.second.capacity().0 + self.third.capacity().0)
    }

    // What stands in them.
    pub(crate) fn standing(&self) -> Dollars
        ensures value { result.0 ≡ pools_standing self.now }
        ensures bound { result.0 ≤ 9600000000 }
    {
        Dollars(self.first.standing().0 + self.second.standing().0 + self.third.standing().0)
    }

    // What a member bears in them.
    fn bears(&self, member: u16) -> Dollars
        requires { 0 < member }
        ensures { result.0 ≡ pools_borne self.now member }
    {
        borne(&self.first, member) + borne(&self.second, member) + borne(&self.third, member)
    }

    // Has them stand in order for what they can of what is left of a loss, and says what they leave.
    pub(crate) fn pour(&mut self, left: Dollars) -> Dollars
        ensures rest { result.0 ≡ left.0 - capacity_of self.old.first - capacity_of self.old.second - capacity_of self.old.third }
        ensures first { stake_of self.new.first ≡ poured self.old.first left.0 }
        ensures second { stake_of self.new.second ≡ poured self.old.second (left.0 - capacity_of self.old.first) }
        ensures third { stake_of self.new.third ≡ poured self.old.third (left.0 - capacity_of self.old.first - capacity_of self.old.second) }
    {
        let left = pour(&mut self.first, left);
        let left = pour(&mut self.second, left);
        pour(&mut self.third, left)
    }
}

impl Seats {
    // Pools in which nobody has a weight.
    pub(crate) fn idle() -> Seats
        ensures { stakes_of result ≡ all_idle }
    {
        let nobody = pool(&[Dollars(0); 32]);
        let idle = Pools {
            first: nobody,
            second: nobody,
            third: nobody,
        };
        Seats {
            funds: idle,
            assessments: idle,
        }
    }

    // Pools with what each member brings.
    pub(crate) fn filled(filling: &Filling) -> Seats
        ensures { stakes_of result ≡ fresh_stakes (weights_by filling.now) }
    {
        Seats {
            funds: Pools::filled(filling, Money::Fund),
            assessments: Pools::filled(filling, Money::Assessment),
        }
    }

    // What a member bears: its fund in seats 1 to 3, its assessment in seats 5 to 7.
    pub(crate) fn bears(&self, member: u16) -> Member
        requires { 0 < member }
        ensures fund { result.fund.0 ≡ borne_by (stakes_of self.now) 1 member + (borne_by (stakes_of self.now) 2 member + borne_by (stakes_of self.now) 3 member) }
        ensures assessment { result.assessment.0 ≡ borne_by (stakes_of self.now) 5 member + (borne_by (stakes_of self.now) 6 member + borne_by (stakes_of self.now) 7 member) }
    {
        Member {
            fund: self.funds.bears(member),
            assessment: self.assessments.bears(member),
        }
    }

    // The pool in a seat, by a table: the seats are numbered past the house. None in the fourth, and none where there is no seat.
    pub(crate) fn pool(&self, seat: u16) -> Option<&Pool>
        ensures { InSeat (stakes_of self.now) seat result }
    {
        match seat {
            1 => Some(&self.funds.first),
            2 => Some(&self.funds.second),
            3 => Some(&self.funds.third),
            5 => Some(&self.assessments.first),
            6 => Some(&self.assessments.second),
            7 => Some(&self.assessments.third),
            _ => None,
        }
    }
}
