// How a book is made.
ghost use Rattle.book.specs.Lived.{Lived};
ghost use Rattle.book.specs.State.{made, view};
ghost use Rattle.std.specs.Prelude.{◌≡◌, []};

use super::Book;
use crate::phase::Phase;
use crate::seats::Seats;
use auction::auction::Auction;
use auction::roster::Roster;
use resource::resource::Resource;
use share::units::Dollars;

impl<R: Resource> Book<R> {
    // A book over a house, which stands for nothing from now on; nobody is enrolled. It has lived through nothing yet.
    pub fn new(mut house: R) -> Book<R>
        ensures view { view R.Resource result ≡ made (R.capacity house) }
        ensures lives { Lived R.Resource (R.capacity house) [] result }
    {
        let _ = house.stand_at(Dollars(0));
        Book {
            phase: Phase::Resting,
            members: Roster::new(),
            auction: Auction::none(),
            seats: Seats::idle(),
            house,
            loss: Dollars(0),
        }
    }
}
