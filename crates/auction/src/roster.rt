// The members of a book by number. The struct stands alone here.
ghost use Rattle.auction.specs.Roster.{Funded, held};
ghost use Rattle.std.specs.Prelude.{◌≡◌, map, length};

use crate::place::Place;

pub mod members;
pub mod requirements;

// A place for each member number, 1 to 32. No fund and no assessment is above its limit.
// The places are read by clauses as a list, with no model that hides the fields: who holds a roster proves by its ghost fields that it has 32 places and what they hold at most.
#[derive(Clone, Copy)]
pub struct Roster {
    places: [Place; 32],
    ghost whole: { length places ≡ 32 },
    ghost funded: { Funded (map held places) },
}
