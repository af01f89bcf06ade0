// What is asked about the lots of an auction. A number above the last is answered as of a lot without bids, and 0 as 1; who asks refuses both first.
// The roster and a member's number stay two parameters: a struct of both would be taken apart in each clause, and made for each question by the book, which holds the roster.
ghost use Rattle.std.specs.Prelude.{◌≡◌, ◌-◌, length, slice_index};
ghost use Rattle.auction.specs.Auctions.{listings_of};
ghost use Rattle.auction.specs.Classes.{class_in, average_in};
ghost use Rattle.auction.specs.Counting.{silent};
ghost use Rattle.auction.specs.Lots.{lot_at};
ghost use Rattle.auction.specs.Places.{places_of};
ghost use Rattle.auction.specs.Requirements.{requirement_of};
ghost use Rattle.lot.specs.Allocation.{allocations};
ghost use Rattle.lot.specs.Price.{lot_price};

use super::Auction;
use crate::roster::Roster;
use lot::bid::Price;
use lot::class::Class;
use share::units::Parts;

impl Auction {
    // How many bids a lot has.
    pub fn bids(&self, lot: u16) -> u16
        ensures { result ≡ length (lot_at (listings_of self.now) lot).bids }
    {
        self.lot(lot)
            .map_or(0, |lot| lot.bids().entries().len() as u16)
    }

    // A lot's price; the lot fails where there is none.
    pub fn price(&self, lot: u16) -> Option<Price>
        ensures { result ≡ lot_price (lot_at (listings_of self.now) lot).bids }
    {
        self.lot(lot)?.price()
    }

    // A member's requirement in a lot.
    pub fn requirement(&self, members: &Roster, member: u16, lot: u16) -> Parts
        ensures { result.0 ≡ requirement_of (places_of members.now) (lot_at (listings_of self.now) lot) member }
    {
        self.lot(lot)
            .map_or(Parts(0), |lot| lot.requirement(members, member))
    }

    // What a bid gets of a lot, by its entry number.
    pub fn allocation(&self, lot: u16, entry: u16) -> Parts
        ensures { result.0 ≡ slice_index (allocations (lot_at (listings_of self.now) lot).bids) (entry - 1) }
    {
        self.lot(lot).map_or(Parts(0), |lot| lot.allocation(entry))
    }

    // A member's BP in a lot, where the lot has a price.
    pub fn average(&self, members: &Roster, member: u16, lot: u16) -> Option<Price>
        ensures { result ≡ average_in (places_of members.now) (listings_of self.now) member lot }
    {
        self.lot(lot)?.average(members, member)
    }

    // A member's class in a lot.
    pub fn class(&self, members: &Roster, member: u16, lot: u16) -> Option<Class>
        ensures { result ≡ class_in (places_of members.now) (listings_of self.now) member lot }
    {
        if self.is_silent(members, member) {
            return Some(Class::NonBidding);
        }
        let lot = self.lot(lot)?;
        lot.class(lot.price(), lot.earned(members, member))
    }
}
