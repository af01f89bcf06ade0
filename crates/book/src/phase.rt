// The phases of a book.
ghost use Rattle.book.specs.Texts.{phase_text};
ghost use Rattle.std.specs.Prelude.{Some};

use std::fmt;

// Resting between auctions, Bidding while an auction is open, Charging while its pools stand for a loss.
#[derive(Clone, Copy, PartialEq, Eq)]
pub enum Phase {
    Resting,
    Bidding,
    Charging,
}

impl fmt::Display for Phase {
    ghost output = { λ p. Some (phase_text p) };

    fn fmt<W: fmt::Write>(&self, f: &mut fmt::Formatter<W>) -> fmt::Result {
        f.write_str(match self {
            Phase::Resting => "Resting",
            Phase::Bidding => "Bidding",
            Phase::Charging => "Charging",
        })
    }
}
