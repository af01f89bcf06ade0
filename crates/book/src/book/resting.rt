// The calls of a Resting book: members come, grow and go, and an auction opens.
ghost use Rattle.book.specs.Calls.{said, done};
ghost use Rattle.book.specs.declared.answers.Answer.TheVariants.{Released};
ghost use Rattle.book.specs.Next.{answer, next};
ghost use Rattle.book.specs.State.{view};
ghost use Rattle.book.specs.declared.calls.Call.TheVariants.{Enrol, Open, Release, TopUp};
ghost use Rattle.share.specs.Refusals.{numbered};
ghost use Rattle.std.specs.Prelude.{◌≡◌};

use super::Book;
use crate::phase::Phase;
use auction::auction::Auction;
use auction::member::Member;
use auction::offer::Offer;
use resource::resource::Resource;
use share::refusal::Refusal;
use share::units::Dollars;

impl<R: Resource> Book<R> {
    // Makes a number a member with a fund and an assessment, which a caller hands over as two numbers, as all calls do.
    pub fn enrol(&mut self, member: u16, fund: Dollars, assessment: Dollars) -> Result<(), Refusal>
        ensures answer { said done (numbered result) ≡ answer (view R.Resource self.old) (Enrol member fund assessment) }
        ensures after { view R.Resource self.new ≡ next (view R.Resource self.old) (Enrol member fund assessment) }
    {
        self.in_phase(Phase::Resting)?;
        self.members.enrol(member, Member { fund, assessment })
    }

    // Adds to a member's fund and assessment.
    pub fn top_up(&mut self, member: u16, fund: Dollars, assessment: Dollars) -> Result<(), Refusal>
        ensures answer { said done (numbered result) ≡ answer (view R.Resource self.old) (TopUp member fund assessment) }
        ensures after { view R.Resource self.new ≡ next (view R.Resource self.old) (TopUp member fund assessment) }
    {
        self.in_phase(Phase::Resting)?;
        self.members.top_up(member, Member { fund, assessment })
    }

    // Removes a member, and answers what it had.
    pub fn release(&mut self, member: u16) -> Result<Member, Refusal>
        ensures answer { said Released (numbered result) ≡ answer (view R.Resource self.old) (Release member) }
        ensures after { view R.Resource self.new ≡ next (view R.Resource self.old) (Release member) }
    {
        self.in_phase(Phase::Resting)?;
        self.members.release(member)
    }

    // Opens an auction.
    pub fn open(&mut self, offer: &Offer) -> Result<(), Refusal>
        ensures answer { said done (numbered result) ≡ answer (view R.Resource self.old) (Open offer.now) }
        ensures after { view R.Resource self.new ≡ next (view R.Resource self.old) (Open offer.now) }
    {
        self.in_phase(Phase::Resting)?;
        self.auction = Auction::open(offer)?;
        self.phase = Phase::Bidding;
        Ok(())
    }
}
