// Why something is declined. Each case has a number, which `number` in specs/Refusals.antt defines.
ghost use Rattle.share.specs.Refusals.{number, reason_of, shown};
ghost use Rattle.std.specs.Prelude.{◌≡◌, Some};

use std::error::Error;
use std::fmt;

#[derive(Clone, Copy, PartialEq, Eq, Debug)]
pub enum Refusal {
    // the call or question does not belong to the phase
    WrongPhase = 1,
    // a number names nothing: a member outside 1 to 32, a payer that a pool has not
    OutOfRange = 2,
    // the member is not enrolled
    NotEnrolled = 3,
    // the member to enrol is enrolled
    AlreadyEnrolled = 4,
    // an amount, a size, a price or a count is outside its limits
    OutsideLimits = 5,
    // a lot's terms are not as they must be
    LotTerms = 6,
    // an All or Nothing bid is not for the whole lot
    AllOrNothingSize = 7,
    // the member has an All or Nothing bid in the lot already
    SecondAllOrNothing = 8,
    // the lot holds as many bids as it can
    LotFull = 9,
    // a call has excused the member from the lot
    ExcusedByCall = 10,
    // a resource is to stand above its capacity
    AboveCapacity = 11,
}

impl Refusal {
    // The number that a refusal is known by.
    pub fn number(self) -> u8
        ensures { result ≡ number self }
    {
        self as u8
    }

    // The reason in words.
    pub fn reason(self) -> &'static str
        ensures { result.now ≡ reason_of self }
    {
        match self {
            Refusal::WrongPhase => "wrong phase",
            Refusal::OutOfRange => "number out of range",
            Refusal::NotEnrolled => "not enrolled",
            Refusal::AlreadyEnrolled => "already enrolled",
            Refusal::OutsideLimits => "amount outside its limits",
            Refusal::LotTerms => "lots not as they must be",
            Refusal::AllOrNothingSize => "All or Nothing bid not for the whole lot",
            Refusal::SecondAllOrNothing => "second All or Nothing bid in the lot",
            Refusal::LotFull => "lot full",
            Refusal::ExcusedByCall => "excused by a call",
            Refusal::AboveCapacity => "above capacity",
        }
    }
}

// What a program prints of a refusal: its number and the reason.
impl fmt::Display for Refusal {
    ghost output = { λ refusal. Some (shown refusal) };

    fn fmt<W: fmt::Write>(&self, f: &mut fmt::Formatter<W>) -> fmt::Result {
        let number = self.number();
        let reason = self.reason();
        write!(f, "refused {number}: {reason}")
    }
}

impl Error for Refusal {}
