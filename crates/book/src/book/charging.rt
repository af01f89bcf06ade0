// The calls of a Charging book: charges, recoveries, and the conclusion.
ghost use Rattle.book.specs.Calls.{said};
ghost use Rattle.book.specs.declared.answers.Answer.TheVariants.{Concluded, Covered, Returned};
ghost use Rattle.book.specs.Next.{answer, next};
ghost use Rattle.auction.specs.Places.{places_of};
ghost use Rattle.book.specs.Standing.{lowered_roster};
ghost use Rattle.book.specs.State.{view};
ghost use Rattle.book.specs.declared.calls.Call.TheVariants.{Charge, Conclude, Recover};
ghost use Rattle.book.specs.Refusals.{loss_tests};
ghost use Rattle.share.specs.Refusals.{first_nonzero, numbered, unless};
ghost use Rattle.std.specs.Prelude.{◌≡◌};

use super::Book;
use crate::answers::{Covering, Returning};
use crate::phase::Phase;
use crate::seats::Seats;
use auction::auction::Auction;
use auction::member::Member;
use auction::roster::Roster;
use auction::roster::members::MOST_MEMBERS;
use resource::resource::Resource;
use share::refusal::Refusal;
use share::units::Dollars;
use std::mem;

pub const MOST_LOSS: Dollars = Dollars(10_000_000_000);

// Refuses an amount that may not be charged or recovered.
fn within_limits(amount: Dollars) -> Result<(), Refusal>
    ensures { numbered result ≡ unless (first_nonzero (loss_tests amount.0)) tt }
{
    if amount > MOST_LOSS {
        Err(Refusal::OutsideLimits)
    } else {
        Ok(())
    }
}

impl<R: Resource> Book<R> {
    // Charges a loss to the seats, as far as they have capacity free.
    pub fn charge(&mut self, amount: Dollars) -> Result<Covering, Refusal>
        ensures answer { said Covered (numbered result) ≡ answer (view R.Resource self.old) (Charge amount) }
        ensures after { view R.Resource self.new ≡ next (view R.Resource self.old) (Charge amount) }
    {
        self.in_phase(Phase::Charging)?;
        within_limits(amount)?;
        let standing = self.standing();
        let free = Dollars(self.capacity().0.saturating_sub(standing.0));
        let covered = amount.min(free);
        self.stand(standing + covered);
        Ok(Covering {
            covered,
            uncovered: amount - covered,
        })
    }

    // Returns a recovery to the seats, as far as there is a net loss.
    pub fn recover(&mut self, amount: Dollars) -> Result<Returning, Refusal>
        ensures answer { said Returned (numbered result) ≡ answer (view R.Resource self.old) (Recover amount) }
        ensures after { view R.Resource self.new ≡ next (view R.Resource self.old) (Recover amount) }
    {
        self.in_phase(Phase::Charging)?;
        within_limits(amount)?;
        let returned = amount.min(self.loss);
        self.stand(self.loss - returned);
        Ok(Returning {
            returned,
            surplus: amount - returned,
        })
    }

    // The members, each fund and assessment lowered by what it bears.
    fn lowered(&self) -> Roster
        ensures { places_of result ≡ lowered_roster (view R.Resource self.now) }
    {
        let mut members = self.members;
        for member in 1..=MOST_MEMBERS {
            members.lower(member, self.seats.bears(member));
        }
        members
    }

    // Takes the net loss from the members and from the house, ends the auction and answers the net loss.
    pub fn conclude(&mut self) -> Result<Dollars, Refusal>
        ensures answer { said Concluded (numbered result) ≡ answer (view R.Resource self.old) Conclude }
        ensures after { view R.Resource self.new ≡ next (view R.Resource self.old) Conclude }
    {
        self.in_phase(Phase::Charging)?;
        self.members = self.lowered();
        self.house.write_off();
        self.seats = Seats::idle();
        self.auction = Auction::none();
        self.phase = Phase::Resting;
        Ok(mem::take(&mut self.loss))
    }
}
