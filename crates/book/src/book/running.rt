// Calls as values: a book makes one, or a list of them.
ghost use Rattle.std.specs.Prelude.{◌≡◌, min, length, take, drop};
ghost use Rattle.book.specs.Law.{Law};
ghost use Rattle.book.specs.Lived.{Does, LivesOn, Ran};

use super::Book;
use crate::answers::Answer;
use crate::calls::Call;
use resource::resource::Resource;
use share::refusal::Refusal;

impl<R: Resource> Book<R> {
    // Makes a call by its kind.
    fn make(&mut self, call: &Call) -> Result<Answer, Refusal>
        ensures { Does R.Resource self.old call.now result self.new }
    {
        Ok(match *call {
            Call::Enrol {
                member,
                fund,
                assessment,
            } => {
                self.enrol(member, fund, assessment)?;
                Answer::Done
            }
            Call::TopUp {
                member,
                fund,
                assessment,
            } => {
                self.top_up(member, fund, assessment)?;
                Answer::Done
            }
            Call::Release(member) => Answer::Released(self.release(member)?),
            Call::Open(offer) => {
                self.open(&offer)?;
                Answer::Done
            }
            Call::Excuse { member, lot } => {
                self.excuse(member, lot)?;
                Answer::Done
            }
            Call::Bid {
                member,
                lot,
                kind,
                size,
                price,
            } => Answer::Entry(self.bid(member, lot, kind, size, price)?),
            Call::Close => Answer::Closed(self.close()?),
            Call::Charge(amount) => Answer::Covered(self.charge(amount)?),
            Call::Recover(amount) => Answer::Returned(self.recover(amount)?),
            Call::Conclude => Answer::Concluded(self.conclude()?),
        })
    }

    // Makes a call, and answers what it answers. A book with a history goes on with it, by this call.
    // `S` is the house of any other book: the law compares the two.
    pub fn apply<S: Resource>(&mut self, call: &Call) -> Result<Answer, Refusal>
        ensures does { Does R.Resource self.old call.now result self.new }
        ensures lives { LivesOn R.Resource self.old call.now result self.new }
        ensures law { Law R.Resource S.Resource }
    {
        self.make(call)
    }

    // Makes calls one after another, as long as there is room for their answers, and says how many it made. The caller brings the room: a book asks for no memory.
    pub fn run<S: Resource>(
        &mut self,
        calls: &[Call],
        answers: &mut [Result<Answer, Refusal>],
    ) -> usize
        ensures count { result ≡ min (length calls.now) (length answers.old) }
        ensures ran { Ran R.Resource self.old (take result calls.now) (take result answers.new) self.new }
        ensures rest { drop result answers.new ≡ drop result answers.old }
        ensures law { Law R.Resource S.Resource }
    {
        let count = calls.len().min(answers.len());
        // By an index: behind a `zip` with `iter_mut` a proof knows how many answers there are, and not which; and of a loop through `iter_mut().enumerate()` that leaves out a call, the proof refuses the form and not the call that is missing.
        for i in 0..count {
            answers[i] = self.apply::<S>(&calls[i]);
        }
        count
    }
}
