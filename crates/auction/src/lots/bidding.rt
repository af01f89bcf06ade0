// Opening a lot, excusing members from it, and bids that come to it.
ghost use Rattle.std.specs.Prelude.{◌≡◌, ◌+◌, length};
ghost use Rattle.auction.specs.Lots.{listing_of, as_listed, opened, excusing, entering, excused_by_call, bid_tests, weight_in};
ghost use Rattle.auction.specs.Offers.{bad_lot};
ghost use Rattle.lot.specs.Lots.{entries_of};
ghost use Rattle.lot.specs.Price.{lot_price};
ghost use Rattle.share.specs.Refusals.{numbered, unless, left_by, first_nonzero, if_so};
ghost use Rattle.share.specs.declared.refusal.Refusal.TheVariants.{LotTerms};

use super::Lot;
use crate::place::index;
use crate::terms::Terms;
use lot::bid::{Bid, Price};
use lot::bids::Bids;
use lot::pri::Pri;
use share::refusal::Refusal;
use share::rule::Weighted;

pub const LEAST_REQUIREMENT: u16 = 10_000;

pub const MOST_REQUIREMENT: u16 = 15_000;

// Amounts are shared over lots by their weights.
impl Weighted for Lot {
    ghost heft = { weight_in };

    fn weight(&self) -> u64 {
        u64::from(self.weight)
    }
}

impl Lot {
    // A lot on terms, with nobody excused and without bids.
    pub(crate) fn new(terms: Terms) -> Result<Lot, Refusal>
        ensures { as_listed (numbered result) ≡ unless (if_so (bad_lot terms) LotTerms) (opened terms) }
    {
        let requirements = LEAST_REQUIREMENT..=MOST_REQUIREMENT;
        if terms.weight == 0 || !requirements.contains(&terms.requirement) {
            return Err(Refusal::LotTerms);
        }
        let pri = Pri::new(terms.pri)?;
        Ok(Lot {
            weight: terms.weight,
            requirement: terms.requirement,
            pri,
            excused: [false; 32],
            bids: Bids::new(),
        })
    }

    // A lot as it fills the places of an auction where no lot is.
    pub(crate) fn blank() -> Lot {
        Lot {
            weight: 0,
            requirement: 0,
            pri: Pri::least(),
            excused: [false; 32],
            bids: Bids::new(),
        }
    }

    // Makes a member's requirement 0.
    // A test and an index: of the element that `get_mut` of an array lends, a proof learns nothing, so that the ghost fields and the promise would stay open.
    pub(crate) fn excuse(&mut self, member: u16)
        ensures { listing_of self.new ≡ excusing member (listing_of self.old) }
    {
        let i = index(member);
        if i < self.excused.len() {
            self.excused[i] = true;
        }
    }

    // Whether a call excused a member.
    pub(crate) fn is_excused(&self, member: u16) -> bool
        ensures { result ≡ excused_by_call (listing_of self.now) member }
    {
        self.excused.get(index(member)).copied().unwrap_or(false)
    }

    // Takes a bid in, and answers its entry number.
    pub(crate) fn enter(&mut self, bid: Bid) -> Result<u16, Refusal>
        ensures answer { numbered result ≡ unless (first_nonzero (bid_tests (listing_of self.old) bid)) (length (listing_of self.old).bids + 1) }
        ensures after { listing_of self.new ≡ left_by (first_nonzero (bid_tests (listing_of self.old) bid)) (listing_of self.old) (entering bid (listing_of self.old)) }
    {
        if self.is_excused(bid.member) {
            self.bids.admits(&bid)?;
            return Err(Refusal::ExcusedByCall);
        }
        self.bids.enter(bid)
    }

    // The bids of the lot.
    pub(crate) fn bids(&self) -> &Bids
        ensures { entries_of result.now ≡ (listing_of self.now).bids }
    {
        &self.bids
    }

    // The lot's price; the lot fails where there is none.
    pub(crate) fn price(&self) -> Option<Price>
        ensures { result ≡ lot_price (listing_of self.now).bids }
    {
        self.bids.price()
    }
}
