// What a member's bids earn it in a lot.
ghost use Rattle.auction.specs.Classes.{class_at, senior_at, subordinate_at, where_sold};
ghost use Rattle.std.specs.Prelude.{◌≡◌, ◌-◌, slice_index};
ghost use Rattle.auction.specs.Counting.{bp_of};
ghost use Rattle.auction.specs.Earning.{earned_of};
ghost use Rattle.auction.specs.Lots.{listing_of};
ghost use Rattle.auction.specs.Places.{places_of};
ghost use Rattle.auction.specs.Requirements.{requirement_of};
ghost use Rattle.lot.specs.Allocation.{allocations};
ghost use Rattle.lot.specs.Price.{lot_price};

use super::Lot;
use crate::earned::Earned;
use crate::place::index;
use crate::roster::Roster;
use lot::bid::Price;
use lot::class::{Class, Tranches};
use share::units::{Dollars, Parts};

impl Lot {
    // The parts that a member must bid for.
    pub(crate) fn requirement(&self, members: &Roster, member: u16) -> Parts
        ensures { result.0 ≡ requirement_of (places_of members.now) (listing_of self.now) member }
    {
        if self.is_excused(member) {
            return Parts(0);
        }
        members.part(self.requirement, member)
    }

    // A member's requirement and BP.
    pub(crate) fn earned(&self, members: &Roster, member: u16) -> Earned
        ensures { result ≡ earned_of (places_of members.now) member (listing_of self.now) }
    {
        let requirement = self.requirement(members, member);
        Earned {
            requirement,
            bp: self.bids.best_price(member, requirement),
        }
    }

    // The class that this earns, where the lot has a price.
    pub(crate) fn class(&self, price: Option<Price>, earned: Earned) -> Option<Class>
        ensures { result ≡ class_at price (listing_of self.now).terms.pri earned.requirement.0 earned.bp }
    {
        let price = price?;
        Some(self.pri.class(price, earned.requirement, earned.bp))
    }

    // The senior and the subordinate part of a lot amount; nothing where the lot has no price.
    pub(crate) fn tranches(&self, price: Option<Price>, earned: Earned, amount: Dollars) -> Tranches
        ensures senior { result.senior.0 ≡ senior_at price (listing_of self.now).terms.pri earned.requirement.0 earned.bp amount.0 }
        ensures subordinate { result.subordinate.0 ≡ subordinate_at price (listing_of self.now).terms.pri earned.requirement.0 earned.bp amount.0 }
    {
        let Some(price) = price else {
            return Tranches {
                senior: Dollars(0),
                subordinate: Dollars(0),
            };
        };
        self.pri
            .tranches(price, earned.requirement, earned.bp, amount)
    }

    // A member's BP, where the lot has a price.
    pub(crate) fn average(&self, members: &Roster, member: u16) -> Option<Price>
        ensures { result ≡ where_sold (lot_price (listing_of self.now).bids) (bp_of (places_of members.now) (listing_of self.now) member) }
    {
        self.price()?;
        self.earned(members, member).bp
    }

    // What a bid gets, by its entry number.
    pub(crate) fn allocation(&self, entry: u16) -> Parts
        ensures { result.0 ≡ slice_index (allocations (listing_of self.now).bids) (entry - 1) }
    {
        let allocations = self.bids.allocations();
        allocations
            .parts()
            .get(index(entry))
            .copied()
            .unwrap_or(Parts(0))
    }
}
