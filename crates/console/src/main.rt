// Reads commands for a book from standard input, one a line, and prints one line for each.
#![tactic(auto)]

use book::answers::Reply;
use book::book::Book;
use command::command::Command;
use command::question::Question;
use resource::deposit::Deposit;
use share::refusal::Refusal;
use share::units::Dollars;
use std::io::{BufRead, BufReader, BufWriter, Write};
use std::{fmt, io};
use words::Words;

// What the house of the first book puts in.
const FIRST_HOUSE: Dollars = Dollars(50_000_000);

// A book over a deposit, and another after each house that is taken.
#[derive(Drop)]
struct Console {
    book: Book<Deposit>,
}

impl Console {
    // Does what a line asks for, and prints its words with the answer.
    fn read<W: Write>(&mut self, out: &mut W, line: &[u8]) -> io::Result<()> {
        match Command::parse(line) {
            Ok(Command::Nothing) => Ok(()),
            Ok(Command::House(amount)) => {
                echo(out, line)?;
                self.house(out, amount)
            }
            Ok(Command::Call(call)) => {
                echo(out, line)?;
                tell(out, self.book.apply::<Deposit>(&call))
            }
            Ok(Command::Ask(question)) => {
                echo(out, line)?;
                self.ask(out, question)
            }
            Err(fault) => {
                echo(out, line)?;
                writeln!(out, "error: {fault}")
            }
        }
    }

    // A new book over a deposit; the old one stays if the deposit is refused.
    fn house<W: Write>(&mut self, out: &mut W, amount: Dollars) -> io::Result<()> {
        match Deposit::new(amount) {
            Ok(house) => {
                self.book = Book::new(house);
                writeln!(out, "ok")
            }
            Err(refusal) => writeln!(out, "{refusal}"),
        }
    }

    fn ask<W: Write>(&self, out: &mut W, question: Question) -> io::Result<()> {
        let book = &self.book;
        match question {
            Question::Phase => writeln!(out, "{}", book.phase()),
            Question::Member(member) => tell(out, book.member(member)),
            Question::Requirement { member, lot } => tell(out, book.requirement(member, lot)),
            Question::Price(lot) => tell(out, book.price(lot).map(OrNone)),
            Question::Allocation { lot, entry } => tell(out, book.allocation(lot, entry)),
            Question::Average { member, lot } => tell(out, book.average(member, lot).map(OrNone)),
            Question::Class { member, lot } => tell(out, book.class(member, lot).map(OrNone)),
            Question::Seat(seat) => tell(out, book.seat(seat)),
            Question::Bears { member, seat } => tell(out, book.bears(member, seat)),
        }
    }
}

// Prints what a call or a question answers.
fn tell<W: Write, A: fmt::Display + Drop>(
    out: &mut W,
    answer: Result<A, Refusal>,
) -> io::Result<()> {
    writeln!(out, "{}", Reply(answer))
}

// What there is, or the word none, to be printed.
#[derive(Drop)]
struct OrNone<T>(Option<T>);

impl<T: fmt::Display> fmt::Display for OrNone<T> {
    fn fmt<W: fmt::Write>(&self, f: &mut fmt::Formatter<W>) -> fmt::Result {
        match &self.0 {
            Some(value) => write!(f, "{value}"),
            None => write!(f, "none"),
        }
    }
}

// Prints the words of a line, byte for byte, with a space behind each, and the arrow.
fn echo<W: Write>(out: &mut W, line: &[u8]) -> io::Result<()> {
    for word in Words::new(line) {
        out.write_all(word)?;
        out.write_all(b" ")?;
    }
    out.write_all(b"-> ")
}

fn main(rt: HostRuntime) -> io::Result<()> {
    let mut out = BufWriter::new(rt.alloc(), rt.stdout())?;
    let house = Deposit::new(FIRST_HOUSE).unwrap();
    let mut console = Console {
        book: Book::new(house),
    };
    for line in BufReader::new(rt.alloc(), rt.stdin())?.split(rt.alloc(), b'\n') {
        console.read(&mut out, line?.as_slice())?;
    }
    out.flush()
}
