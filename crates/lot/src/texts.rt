// Prices and classes as they are printed.
ghost use Rattle.lot.specs.Texts.{class_text};
ghost use Rattle.std.specs.Fmt.{signed_decimal};
ghost use Rattle.std.specs.Prelude.{Some};

use crate::bid::Price;
use crate::class::Class;
use std::fmt;

// The bare number.
impl fmt::Display for Price {
    ghost output = { λ price. Some (signed_decimal price.0) };

    fn fmt<W: fmt::Write>(&self, f: &mut fmt::Formatter<W>) -> fmt::Result {
        let price = self.0;
        write!(f, "{price}")
    }
}

impl fmt::Display for Class {
    ghost output = { λ class. Some (class_text class) };

    fn fmt<W: fmt::Write>(&self, f: &mut fmt::Formatter<W>) -> fmt::Result {
        f.write_str(match self {
            Class::Senior => "Senior",
            Class::Split => "Split",
            Class::Subordinate => "Subordinate",
            Class::Excused => "Excused",
            Class::NonBidding => "Non-bidding",
        })
    }
}
