// Which command a line is.
ghost use Rattle.command.specs.Commands.{command_of, order_of, question_of, silent};
ghost use Rattle.std.specs.Prelude.{◌≡◌};

use crate::fault::Fault;
use crate::opening::offer;
use crate::question::Question;
use crate::reading::{bid, none, one, three, two};
use book::calls::Call;
use share::units::Dollars;
use words::{split_word, text};

#[derive(Clone, Copy)]
pub enum Command {
    // an empty line or a comment
    Nothing,
    // a new book over a deposit of so many dollars
    House(Dollars),
    Call(Call),
    Ask(Question),
}

impl Command {
    // Which command a line is.
    pub fn parse(line: &[u8]) -> Result<Command, Fault>
        ensures { result ≡ command_of line.now }
    {
        let (first, rest) = split_word(line);
        if is_silent(first) {
            Ok(Command::Nothing)
        } else {
            order(text(first), rest)
        }
    }
}

// Whether a line does nothing, by its first word: there is none, or a comment begins.
fn is_silent(first: &[u8]) -> bool
    ensures { result ≡ silent first.now }
{
    first.is_empty() || first.starts_with(b"#")
}

// The command of a name that changes a book, with the words behind it; else a question.
fn order(name: &str, rest: &[u8]) -> Result<Command, Fault>
    ensures { result ≡ order_of name.now rest.now }
{
    let call = match name {
        "house" => return Ok(Command::House(one(rest)?)),
        "enrol" => {
            let (member, fund, assessment) = three(rest)?;
            Call::Enrol {
                member,
                fund,
                assessment,
            }
        }
        "top-up" => {
            let (member, fund, assessment) = three(rest)?;
            Call::TopUp {
                member,
                fund,
                assessment,
            }
        }
        "release" => Call::Release(one(rest)?),
        "open" => Call::Open(offer(rest)?),
        "excuse" => {
            let (member, lot) = two(rest)?;
            Call::Excuse { member, lot }
        }
        "bid" => bid(rest)?,
        "close" => {
            none(rest)?;
            Call::Close
        }
        "charge" => Call::Charge(one(rest)?),
        "recover" => Call::Recover(one(rest)?),
        "conclude" => {
            none(rest)?;
            Call::Conclude
        }
        _ => return question(name, rest),
    };
    Ok(Command::Call(call))
}

// The question of a name with the words behind it.
fn question(name: &str, rest: &[u8]) -> Result<Command, Fault>
    ensures { result ≡ question_of name.now rest.now }
{
    let question = match name {
        "phase" => {
            none(rest)?;
            Question::Phase
        }
        "member" => Question::Member(one(rest)?),
        "requirement" => {
            let (member, lot) = two(rest)?;
            Question::Requirement { member, lot }
        }
        "price" => Question::Price(one(rest)?),
        "allocation" => {
            let (lot, entry) = two(rest)?;
            Question::Allocation { lot, entry }
        }
        "average" => {
            let (member, lot) = two(rest)?;
            Question::Average { member, lot }
        }
        "class" => {
            let (member, lot) = two(rest)?;
            Question::Class { member, lot }
        }
        "seat" => Question::Seat(one(rest)?),
        "bears" => {
            let (member, seat) = two(rest)?;
            Question::Bears { member, seat }
        }
        _ => return Err(Fault::NoSuchCommand),
    };
    Ok(Command::Ask(question))
}
