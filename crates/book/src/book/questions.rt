// What a book is asked; nothing is altered by it.
ghost use Rattle.book.specs.Questions.{of_allocation, of_average, of_bears, of_class, of_member, of_price, of_requirement, of_seat};
ghost use Rattle.book.specs.State.{view};
ghost use Rattle.share.specs.Refusals.{numbered};
ghost use Rattle.std.specs.Prelude.{◌≡◌};

use super::Book;
use crate::answers::{Holding, Seat};
use crate::phase::Phase;
use crate::seats::borne;
use lot::bid::Price;
use lot::class::Class;
use resource::resource::Resource;
use share::refusal::Refusal;
use share::units::{Dollars, Parts};

// What a seat's resource can stand for, and what it stands for.
fn seat_of<R: Resource>(resource: &R) -> Seat
    ensures capacity { result.capacity.0 ≡ R.capacity resource.now }
    ensures standing { result.standing.0 ≡ R.standing resource.now }
{
    Seat {
        capacity: resource.capacity(),
        standing: resource.standing(),
    }
}

// Some questions have one shape, and each asks its own of the auction.
impl<R: Resource> Book<R> {
    // The phase.
    pub fn phase(&self) -> Phase
        ensures { result ≡ (view R.Resource self.now).phase }
    {
        self.phase
    }

    // A member's fund and assessment, and what each bears.
    pub fn member(&self, member: u16) -> Result<Holding, Refusal>
        ensures { numbered result ≡ of_member (view R.Resource self.now) member }
    {
        let held = self.members.enrolled(member)?;
        let borne = self.seats.bears(member);
        Ok(Holding {
            fund: held.fund,
            assessment: held.assessment,
            fund_borne: borne.fund,
            assessment_borne: borne.assessment,
        })
    }

    // What a member must bid for in a lot.
    pub fn requirement(&self, member: u16, lot: u16) -> Result<Parts, Refusal>
        ensures { numbered result ≡ of_requirement (view R.Resource self.now) member lot }
    {
        if self.phase == Phase::Resting {
            return Err(Refusal::WrongPhase);
        }
        self.member_and_lot(member, lot)?;
        Ok(self.auction.requirement(&self.members, member, lot))
    }

    // A lot's price; none where it failed.
    pub fn price(&self, lot: u16) -> Result<Option<Price>, Refusal>
        ensures { numbered result ≡ of_price (view R.Resource self.now) lot }
    {
        self.in_phase(Phase::Charging)?;
        self.known_lot(lot)?;
        Ok(self.auction.price(lot))
    }

    // What a bid gets of a lot, by its entry number.
    pub fn allocation(&self, lot: u16, entry: u16) -> Result<Parts, Refusal>
        ensures { numbered result ≡ of_allocation (view R.Resource self.now) lot entry }
    {
        self.in_phase(Phase::Charging)?;
        self.known_lot(lot)?;
        if !(1..=self.auction.bids(lot)).contains(&entry) {
            return Err(Refusal::OutOfRange);
        }
        Ok(self.auction.allocation(lot, entry))
    }

    // A member's BP in a lot.
    pub fn average(&self, member: u16, lot: u16) -> Result<Option<Price>, Refusal>
        ensures { numbered result ≡ of_average (view R.Resource self.now) member lot }
    {
        self.in_phase(Phase::Charging)?;
        self.member_and_lot(member, lot)?;
        Ok(self.auction.average(&self.members, member, lot))
    }

    // A member's class in a lot.
    pub fn class(&self, member: u16, lot: u16) -> Result<Option<Class>, Refusal>
        ensures { numbered result ≡ of_class (view R.Resource self.now) member lot }
    {
        self.in_phase(Phase::Charging)?;
        self.member_and_lot(member, lot)?;
        Ok(self.auction.class(&self.members, member, lot))
    }

    // A seat's capacity and standing.
    pub fn seat(&self, seat: u16) -> Result<Seat, Refusal>
        ensures { numbered result ≡ of_seat (view R.Resource self.now) seat }
    {
        self.in_phase(Phase::Charging)?;
        if seat == 4 {
            return Ok(seat_of(&self.house));
        }
        match self.seats.pool(seat) {
            Some(pool) => Ok(seat_of(pool)),
            None => Err(Refusal::OutOfRange),
        }
    }

    // What a member bears in the pool of a seat.
    pub fn bears(&self, member: u16, seat: u16) -> Result<Dollars, Refusal>
        ensures { numbered result ≡ of_bears (view R.Resource self.now) member seat }
    {
        self.in_phase(Phase::Charging)?;
        let Some(pool) = self.seats.pool(seat) else {
            return Err(Refusal::OutOfRange);
        };
        self.members.enrolled(member)?;
        Ok(borne(pool, member))
    }
}
