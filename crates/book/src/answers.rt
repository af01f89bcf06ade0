// What calls and questions answer, and how it is printed.
ghost use Rattle.book.specs.Texts.{answer_text, holding_text, reply_text, seat_text};
ghost use Rattle.std.specs.Prelude.{Some};

use auction::member::Member;
use share::refusal::Refusal;
use share::units::Dollars;
use std::fmt;

// What a call answers that is not refused.
#[derive(Clone, Copy)]
pub enum Answer {
    // nothing more is to be said
    Done,
    // the entry number of a bid
    Entry(u16),
    // what a released member is paid out
    Released(Member),
    Closed(Closing),
    Covered(Covering),
    Returned(Returning),
    // the net loss
    Concluded(Dollars),
}

// What a close comes to: how many lots failed, and the capacity of the seven seats.
#[derive(Clone, Copy)]
pub struct Closing {
    pub failed: u16,
    pub capacity: Dollars,
}

// What a charge comes to.
#[derive(Clone, Copy)]
pub struct Covering {
    pub covered: Dollars,
    pub uncovered: Dollars,
}

// What a recovery comes to.
#[derive(Clone, Copy)]
pub struct Returning {
    pub returned: Dollars,
    pub surplus: Dollars,
}

// A member's fund and assessment, and what each of them bears.
#[derive(Clone, Copy)]
pub struct Holding {
    pub fund: Dollars,
    pub assessment: Dollars,
    pub fund_borne: Dollars,
    pub assessment_borne: Dollars,
}

// What a seat can stand for, and what it stands for.
#[derive(Clone, Copy)]
pub struct Seat {
    pub capacity: Dollars,
    pub standing: Dollars,
}

// What a call or a question answers, or why it is refused, to be printed.
#[derive(Drop)]
pub struct Reply<A>(pub Result<A, Refusal>);

impl<A: fmt::Display> fmt::Display for Reply<A> {
    ghost output = { λ reply. reply_text A.output reply.0 };

    fn fmt<W: fmt::Write>(&self, f: &mut fmt::Formatter<W>) -> fmt::Result {
        match &self.0 {
            Ok(answer) => write!(f, "{answer}"),
            Err(refusal) => write!(f, "{refusal}"),
        }
    }
}

impl fmt::Display for Answer {
    ghost output = { λ a. Some (answer_text a) };

    fn fmt<W: fmt::Write>(&self, f: &mut fmt::Formatter<W>) -> fmt::Result {
        match *self {
            Answer::Done => write!(f, "ok"),
            Answer::Entry(entry) => write!(f, "entry {entry}"),
            Answer::Released(Member { fund, assessment }) => {
                write!(f, "fund {fund} assessment {assessment}")
            }
            Answer::Closed(Closing { failed, capacity }) => {
                write!(f, "failed {failed} capacity {capacity}")
            }
            Answer::Covered(Covering { covered, uncovered }) => {
                write!(f, "covered {covered} uncovered {uncovered}")
            }
            Answer::Returned(Returning { returned, surplus }) => {
                write!(f, "returned {returned} surplus {surplus}")
            }
            Answer::Concluded(loss) => write!(f, "net-loss {loss}"),
        }
    }
}

impl fmt::Display for Holding {
    ghost output = { λ h. Some (holding_text h) };

    fn fmt<W: fmt::Write>(&self, f: &mut fmt::Formatter<W>) -> fmt::Result {
        write!(f, "fund {} assessment {}", self.fund, self.assessment)?;
        let fund = self.fund_borne;
        let assessment = self.assessment_borne;
        write!(f, " fund-borne {fund} assessment-borne {assessment}")
    }
}

impl fmt::Display for Seat {
    ghost output = { λ s. Some (seat_text s) };

    fn fmt<W: fmt::Write>(&self, f: &mut fmt::Formatter<W>) -> fmt::Result {
        write!(f, "capacity {} standing {}", self.capacity, self.standing)
    }
}
