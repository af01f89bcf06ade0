// How a book stands: its phase, its seats and the net loss in them.
ghost use Rattle.book.specs.Next.{all_standing, moved_to};
ghost use Rattle.book.specs.Refusals.{member_lot_tests, out_of_phase};
ghost use Rattle.book.specs.Standing.{capacities};
ghost use Rattle.book.specs.State.{view};
ghost use Rattle.auction.specs.Lots.{no_lot};
ghost use Rattle.share.specs.Refusals.{first_nonzero, if_so, numbered, unless};
ghost use Rattle.share.specs.declared.refusal.Refusal.TheVariants.{OutOfRange};
ghost use Rattle.share.specs.Rule.{total};
ghost use Rattle.std.specs.Prelude.{◌≡◌};

use super::Book;
use crate::phase::Phase;
use resource::resource::Resource;
use share::refusal::Refusal;
use share::units::Dollars;

impl<R: Resource> Book<R> {
    // Refuses what does not belong to the phase.
    pub(crate) fn in_phase(&self, phase: Phase) -> Result<(), Refusal>
        ensures { numbered result ≡ unless (out_of_phase (view R.Resource self.now) phase) tt }
    {
        if self.phase == phase {
            Ok(())
        } else {
            Err(Refusal::WrongPhase)
        }
    }

    // Refuses what is about no member or no lot.
    pub(crate) fn member_and_lot(&self, member: u16, lot: u16) -> Result<(), Refusal>
        ensures { numbered result ≡ unless (first_nonzero (member_lot_tests (view R.Resource self.now) member lot)) tt }
    {
        self.known_lot(lot)?;
        self.members.enrolled(member)?;
        Ok(())
    }

    // Refuses a number that no lot has.
    pub(crate) fn known_lot(&self, lot: u16) -> Result<(), Refusal>
        ensures { numbered result ≡ unless (if_so (no_lot (view R.Resource self.now).lots lot) OutOfRange) tt }
    {
        if (1..=self.auction.count()).contains(&lot) {
            Ok(())
        } else {
            Err(Refusal::OutOfRange)
        }
    }

    // The capacity of all seats. This and `standing` differ in the methods that they call.
    pub(crate) fn capacity(&self) -> Dollars
        ensures { result.0 ≡ total (capacities (view R.Resource self.now)) }
    {
        self.seats.funds.capacity() + self.house.capacity() + self.seats.assessments.capacity()
    }

    // What stands in all seats.
    pub(crate) fn standing(&self) -> Dollars
        ensures { result.0 ≡ all_standing (view R.Resource self.now) }
    {
        self.seats.funds.standing() + self.house.standing() + self.seats.assessments.standing()
    }

    // Has the seats stand in order for a net loss, each for what it can of what the seats before it leave.
    pub(crate) fn stand(&mut self, loss: Dollars)
        ensures { view R.Resource self.new ≡ moved_to (view R.Resource self.old) loss.0 }
    {
        let left = self.seats.funds.pour(loss);
        let filled = self.house.fill(left);
        self.seats.assessments.pour(left - filled);
        self.loss = loss;
        self.phase = Phase::Charging;
    }
}
