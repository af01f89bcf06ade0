// What becomes of an auction: which lots fail, and what each member brings to the pools.
ghost use Rattle.std.specs.Prelude.{◌≡◌, ◌<◌, ◌≤◌, map, length, slice_index, slice_index_or};
ghost use Rattle.auction.specs.Auctions.{listings_of};
ghost use Rattle.auction.specs.Earning.{senior_by, subordinate_by, tiers_by};
ghost use Rattle.auction.specs.Filling.{brought_of, rows_of};
ghost use Rattle.auction.specs.Lots.{failed, unlisted};
ghost use Rattle.auction.specs.Places.{places_of};
ghost use Rattle.auction.specs.Roster.{numbers};
ghost use Rattle.auction.specs.Weights.{lot_amounts};
ghost use Rattle.share.specs.Rule.{limit};

use super::Cleared;
use crate::auction::Auction;
use crate::earned::{Earned, is_silent};
use crate::filling::{Brought, Filling, Tiers};
use crate::roster::Roster;
use lot::class::Tranches;
use share::rule::share;
use share::units::Dollars;
use std::array;

impl<'a> Cleared<'a> {
    // Each lot is cleared once.
    pub(crate) fn new(auction: &'a Auction, members: &'a Roster) -> Cleared<'a>
        ensures auction { result.auction.now ≡ auction.now }
        ensures members { result.members.now ≡ members.now }
    {
        Cleared {
            auction,
            members,
            prices: auction.prices(),
        }
    }

    // How many lots fail.
    pub(crate) fn failed(&self) -> u16
        ensures { result ≡ failed (listings_of self.now.auction.now) }
    {
        self.prices.iter().filter(|price| price.is_none()).count() as u16
    }

    // The senior and the subordinate part of the lot amount at a place. By place, since the share rule asks for it; the prices are one list for all members, what is earned one for each.
    // An amount's limit is asked here and below: an amount is any number in the definitions, and a type for it would be made at each call.
    fn own(&self, earned: Earned, amount: Dollars, i: usize) -> Tranches
        requires bounded { amount.0 ≤ limit }
        requires within { i < length (listings_of self.now.auction.now) }
        ensures senior { result.senior.0 ≡ senior_by (slice_index_or (listings_of self.now.auction.now) i unlisted) earned (slice_index (lot_amounts (listings_of self.now.auction.now) amount.0) i) }
        ensures subordinate { result.subordinate.0 ≡ subordinate_by (slice_index_or (listings_of self.now.auction.now) i unlisted) earned (slice_index (lot_amounts (listings_of self.now.auction.now) amount.0) i) }
    {
        let lots = self.auction.lots();
        let own = share(amount.0, lots, i);
        lots[i].tranches(self.prices[i], earned, Dollars(own))
    }

    // An amount of a member by the seats that it fills, by what it earned in each lot.
    fn tiers(&self, earned: &[Earned], amount: Dollars) -> Tiers
        requires bounded { amount.0 ≤ limit }
        requires long { length earned.now ≡ length (listings_of self.now.auction.now) }
        ensures { result ≡ tiers_by (listings_of self.now.auction.now) earned.now amount.0 }
    {
        let mut tiers = Tiers::default();
        if is_silent(earned) {
            tiers.first = amount;
            return tiers;
        }
        for (i, in_lot) in earned.iter().enumerate() {
            let own = self.own(*in_lot, amount, i);
            tiers.second.0 += own.subordinate.0;
            tiers.third.0 += own.senior.0;
        }
        tiers
    }

    // What a member brings to the pools.
    fn brought(&self, member: u16) -> Brought
        ensures { result ≡ brought_of (places_of self.now.members.now) (listings_of self.now.auction.now) member }
    {
        let earned = self.auction.earned(self.members, member);
        let amounts = self.members.amounts(member);
        Brought {
            fund: self.tiers(&earned, amounts.fund),
            assessment: self.tiers(&earned, amounts.assessment),
        }
    }

    // What each member brings to the pools.
    pub(crate) fn filling(&self) -> Filling
        ensures { rows_of result ≡ map (brought_of (places_of self.now.members.now) (listings_of self.now.auction.now)) (numbers (places_of self.now.members.now)) }
    {
        Filling::of(array::from_fn(|i| self.brought(i as u16 + 1)))
    }
}
