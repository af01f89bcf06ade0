// What the calls answer, added up.
use book::answers::Answer;
use share::refusal::Refusal;
use share::units::Dollars;
use std::fmt;

// A sum for each number that a call answers, of the refusals their count.
#[derive(Clone, Copy, Default)]
pub(crate) struct Sums {
    entries: u64,
    failed: u64,
    capacity: u64,
    covered: u64,
    uncovered: u64,
    returned: u64,
    surplus: u64,
    loss: u64,
    top_ups: u64,
    refused: u64,
}

// Adds to a sum.
fn raise(sum: &mut u64, by: u64) {
    *sum = sum.wrapping_add(by);
}

impl Sums {
    pub(crate) fn add(&mut self, answer: Result<Answer, Refusal>) {
        match answer {
            Ok(Answer::Done | Answer::Released(_)) => {}
            Ok(Answer::Entry(entry)) => raise(&mut self.entries, u64::from(entry)),
            Ok(Answer::Closed(closing)) => {
                raise(&mut self.failed, u64::from(closing.failed));
                raise(&mut self.capacity, closing.capacity.0);
            }
            Ok(Answer::Covered(covering)) => {
                raise(&mut self.covered, covering.covered.0);
                raise(&mut self.uncovered, covering.uncovered.0);
            }
            Ok(Answer::Returned(returning)) => {
                raise(&mut self.returned, returning.returned.0);
                raise(&mut self.surplus, returning.surplus.0);
            }
            Ok(Answer::Concluded(loss)) => raise(&mut self.loss, loss.0),
            Err(_) => raise(&mut self.refused, 1),
        }
    }

    // What a member is topped up with counts times the member's number.
    pub(crate) fn add_top_up(&mut self, member: u16, fund: Dollars, assessment: Dollars) {
        let both = fund.0.wrapping_add(assessment.0);
        raise(&mut self.top_ups, both.wrapping_mul(u64::from(member)));
    }
}

impl fmt::Display for Sums {
    fn fmt<W: fmt::Write>(&self, f: &mut fmt::Formatter<W>) -> fmt::Result {
        writeln!(f, "entries {}", self.entries)?;
        writeln!(f, "failed {}", self.failed)?;
        writeln!(f, "capacity {}", self.capacity)?;
        writeln!(f, "covered {}", self.covered)?;
        writeln!(f, "uncovered {}", self.uncovered)?;
        writeln!(f, "returned {}", self.returned)?;
        writeln!(f, "surplus {}", self.surplus)?;
        writeln!(f, "net-loss {}", self.loss)?;
        writeln!(f, "top-ups {}", self.top_ups)?;
        writeln!(f, "refused {}", self.refused)
    }
}
