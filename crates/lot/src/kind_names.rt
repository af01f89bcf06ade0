// The names of the kinds of bids.
ghost use Rattle.lot.specs.KindNames.{kind_name, kind_named};
ghost use Rattle.std.specs.Prelude.{◌≡◌, Some};

use crate::bid::Kind;
use std::fmt;

impl Kind {
    // The name of a kind.
    pub fn name(self) -> &'static str
        ensures { result.now ≡ kind_name self }
    {
        match self {
            Kind::Standard => "standard",
            Kind::AllOrNothing => "all",
        }
    }

    // The kind of a name.
    pub fn named(name: &str) -> Option<Kind>
        ensures { result ≡ kind_named name.now }
    {
        match name {
            "standard" => Some(Kind::Standard),
            "all" => Some(Kind::AllOrNothing),
            _ => None,
        }
    }
}

impl fmt::Display for Kind {
    ghost output = { λ kind. Some (kind_name kind) };

    fn fmt<W: fmt::Write>(&self, f: &mut fmt::Formatter<W>) -> fmt::Result {
        f.write_str(self.name())
    }
}
