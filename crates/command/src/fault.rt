// Why a line is no command.
ghost use Rattle.command.specs.Faults.{reason_of};
ghost use Rattle.std.specs.Prelude.{◌≡◌, Some};

use std::error::Error;
use std::fmt;

#[derive(Clone, Copy, PartialEq, Eq, Debug)]
pub enum Fault {
    NoSuchCommand,
    Count,
    Kind,
    Number,
    Pri,
    Price,
    Amount,
}

impl Fault {
    // The reason in words.
    pub fn reason(self) -> &'static str
        ensures { result.now ≡ reason_of self }
    {
        match self {
            Fault::NoSuchCommand => "no such command",
            Fault::Count => "wrong count of words",
            Fault::Kind => "not standard or all",
            Fault::Number => "not a number from 0 to 65535",
            Fault::Pri => "not a number from 0 to 4294967295",
            Fault::Price => "not a number from -2147483648 to 2147483647",
            Fault::Amount => "not a number from 0 to 18446744073709551615",
        }
    }
}

// By hand, since a derived `Display` promises nothing of what it writes.
impl fmt::Display for Fault {
    ghost output = { λ x. Some (reason_of x) };

    fn fmt<W: fmt::Write>(&self, f: &mut fmt::Formatter<W>) -> fmt::Result {
        f.write_str(self.reason())
    }
}

impl Error for Fault {}
