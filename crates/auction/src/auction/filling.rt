// What becomes of an auction, and what its members earned in its lots.
ghost use Rattle.std.specs.Prelude.{◌≡◌, map};
ghost use Rattle.auction.specs.Auctions.{listings_of};
ghost use Rattle.auction.specs.Brought.{WithinLimits};
ghost use Rattle.auction.specs.Counting.{silent};
ghost use Rattle.auction.specs.Earning.{earned_of};
ghost use Rattle.auction.specs.Filling.{weights_by};
ghost use Rattle.auction.specs.Lots.{failed, price_in};
ghost use Rattle.auction.specs.Places.{places_of};
ghost use Rattle.auction.specs.Weights.{fill};

use super::Auction;
use super::cleared::Cleared;
use crate::earned::{Earned, is_silent};
use crate::filling::Outcome;
use crate::roster::Roster;
use arrayvec::ArrayVec;
use lot::bid::Price;

impl Auction {
    // The price of each lot; none where it fails.
    // This loop and the next stay two, as one over a closure would want a clause on every function that the closure computes and a proof in each caller. An ArrayVec collects only with an allocator.
    pub(crate) fn prices(&self) -> ArrayVec<Option<Price>, 4>
        ensures { result.items ≡ map price_in (listings_of self.now) }
    {
        let mut prices = ArrayVec::new();
        for lot in self.lots() {
            prices.push(lot.price());
        }
        prices
    }

    // What a member earned in each lot.
    pub(crate) fn earned(&self, members: &Roster, member: u16) -> ArrayVec<Earned, 4>
        ensures { result.items ≡ map (earned_of (places_of members.now) member) (listings_of self.now) }
    {
        let mut earned = ArrayVec::new();
        for lot in self.lots() {
            earned.push(lot.earned(members, member));
        }
        earned
    }

    // Whether a member is Non-bidding: in one lot nothing of its bids counts, although something is required.
    pub(crate) fn is_silent(&self, members: &Roster, member: u16) -> bool
        ensures { result ≡ silent (places_of members.now) member (listings_of self.now) }
    {
        let earned = self.earned(members, member);
        is_silent(&earned)
    }

    // What becomes of the auction: each lot is cleared once, and each member's numbers are worked out once.
    pub fn outcome(&self, members: &Roster) -> Outcome
        ensures failed { result.failed ≡ failed (listings_of self.now) }
        ensures weights { weights_by result.filling ≡ fill (places_of members.now) (listings_of self.now) }
        ensures limits { WithinLimits (weights_by result.filling) }
    {
        let cleared = Cleared::new(self, members);
        Outcome {
            failed: cleared.failed(),
            filling: cleared.filling(),
        }
    }
}
