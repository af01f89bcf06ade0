// The calls of a Bidding book: excuses, bids, and the close.
ghost use Rattle.book.specs.Calls.{said, done};
ghost use Rattle.book.specs.declared.answers.Answer.TheVariants.{Closed, Entry};
ghost use Rattle.book.specs.Next.{answer, next};
ghost use Rattle.book.specs.State.{view};
ghost use Rattle.book.specs.declared.calls.Call.TheVariants.{Bid as BidCall, Close, Excuse};
ghost use Rattle.share.specs.Refusals.{numbered};
ghost use Rattle.std.specs.Prelude.{◌≡◌};

use super::Book;
use crate::answers::Closing;
use crate::phase::Phase;
use crate::seats::Seats;
use auction::auction::Auction;
use lot::bid::{Bid, Kind, Price};
use resource::resource::Resource;
use share::refusal::Refusal;
use share::units::{Dollars, Parts};

impl<R: Resource> Book<R> {
    // Makes a member's requirement in a lot 0.
    pub fn excuse(&mut self, member: u16, lot: u16) -> Result<(), Refusal>
        ensures answer { said done (numbered result) ≡ answer (view R.Resource self.old) (Excuse member lot) }
        ensures after { view R.Resource self.new ≡ next (view R.Resource self.old) (Excuse member lot) }
    {
        self.in_phase(Phase::Bidding)?;
        self.member_and_lot(member, lot)?;
        self.auction.excuse(member, lot);
        Ok(())
    }

    // Enters a bid in a lot, and answers its entry number there.
    pub fn bid(
        &mut self,
        member: u16,
        lot: u16,
        kind: Kind,
        size: u16,
        price: i32,
    ) -> Result<u16, Refusal>
        ensures answer { said Entry (numbered result) ≡ answer (view R.Resource self.old) (BidCall member lot kind size price) }
        ensures after { view R.Resource self.new ≡ next (view R.Resource self.old) (BidCall member lot kind size price) }
    {
        self.in_phase(Phase::Bidding)?;
        self.member_and_lot(member, lot)?;
        let bid = Bid {
            member,
            kind,
            size: Parts(u32::from(size)),
            price: Price(price),
        };
        self.auction.enter(lot, bid)
    }

    // Clears the lots. If all fail there is no auction any more; otherwise the pools are filled.
    pub fn close(&mut self) -> Result<Closing, Refusal>
        ensures answer { said Closed (numbered result) ≡ answer (view R.Resource self.old) (Close) }
        ensures after { view R.Resource self.new ≡ next (view R.Resource self.old) (Close) }
    {
        self.in_phase(Phase::Bidding)?;
        let outcome = self.auction.outcome(&self.members);
        let failed = outcome.failed;
        if failed == self.auction.count() {
            self.auction = Auction::none();
            self.phase = Phase::Resting;
            return Ok(Closing {
                failed,
                capacity: Dollars(0),
            });
        }
        self.seats = Seats::filled(&outcome.filling);
        self.stand(Dollars(0));
        Ok(Closing {
            failed,
            capacity: self.capacity(),
        })
    }
}
