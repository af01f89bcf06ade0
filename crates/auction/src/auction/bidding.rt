// Excusing members from lots, and bids that come to them.
ghost use Rattle.std.specs.Prelude.{◌≡◌, ◌+◌, ◌<◌, map, length, slice_index_or, slice_set};
ghost use Rattle.auction.specs.Auctions.{listings_of};
ghost use Rattle.auction.specs.Lots.{listing_of, unlisted, lot_at, with_lot, excusing, entering, bid_tests, lot_tests};
ghost use Rattle.share.specs.Refusals.{numbered, unless, left_by, first_nonzero};

use super::Auction;
use crate::lots::Lot;
use crate::place::index;
use lot::bid::Bid;
use share::refusal::Refusal;

// The two functions on a slice stay: for a `&mut self` method that is called on `self.lots[i]` itself, in a struct with ghost fields, the checker builds no proof.

// Excuses a member from the lot at a place.
fn excuse_from(lots: &mut [Lot], i: usize, member: u16)
    requires { i < length lots.old }
    ensures { map listing_of lots.new ≡ slice_set (map listing_of lots.old) i (excusing member (slice_index_or (map listing_of lots.old) i unlisted)) }
{
    lots[i].excuse(member);
}

// Takes a bid in the lot at a place.
fn enter_in(lots: &mut [Lot], i: usize, bid: Bid) -> Result<u16, Refusal>
    requires { i < length lots.old }
    ensures answer { numbered result ≡ unless (first_nonzero (bid_tests (slice_index_or (map listing_of lots.old) i unlisted) bid)) (length (slice_index_or (map listing_of lots.old) i unlisted).bids + 1) }
    ensures after { map listing_of lots.new ≡ slice_set (map listing_of lots.old) i (left_by (first_nonzero (bid_tests (slice_index_or (map listing_of lots.old) i unlisted) bid)) (slice_index_or (map listing_of lots.old) i unlisted) (entering bid (slice_index_or (map listing_of lots.old) i unlisted))) }
{
    lots[i].enter(bid)
}

impl Auction {
    // Makes a member's requirement in a lot 0.
    pub fn excuse(&mut self, member: u16, lot: u16)
        ensures { listings_of self.new ≡ with_lot (excusing member) lot (listings_of self.old) }
    {
        let i = index(lot);
        if i < self.count {
            excuse_from(&mut self.lots, i, member);
        }
    }

    // Takes a bid in the lot of a number, and answers its entry number there.
    pub fn enter(&mut self, lot: u16, bid: Bid) -> Result<u16, Refusal>
        ensures answer { numbered result ≡ unless (first_nonzero (lot_tests (listings_of self.old) lot bid)) (length (lot_at (listings_of self.old) lot).bids + 1) }
        ensures after { listings_of self.new ≡ left_by (first_nonzero (lot_tests (listings_of self.old) lot bid)) (listings_of self.old) (with_lot (entering bid) lot (listings_of self.old)) }
    {
        let i = index(lot);
        if lot < 1 || i >= self.count {
            return Err(Refusal::OutOfRange);
        }
        enter_in(&mut self.lots, i, bid)
    }
}
