// Runs the same calls over a book whose house is a deposit and over one whose house is a pool, and prints both answers.
#![tactic(auto)]

use book::answers::{Answer, Reply};
use book::book::Book;
use book::calls::Call;
use resource::deposit::Deposit;
use resource::pool::Pool;
use share::units::Dollars;
use std::io;
use std::io::{BufWriter, Write};

mod calls;
mod printing;

use printing::Shown;

// Two books over houses of one capacity.
#[derive(Drop)]
struct Houses {
    deposit: Book<Deposit>,
    pool: Book<Pool>,
}

impl Houses {
    // Has both books make the calls, and prints what each answers and how their seats stand then.
    fn run<W: Write, const N: usize>(&mut self, out: &mut W, calls: &[Call; N]) -> io::Result<()> {
        let mut one = [Ok(Answer::Done); N];
        let mut other = [Ok(Answer::Done); N];
        let _ = self.deposit.run::<Pool>(calls, &mut one);
        let _ = self.pool.run::<Deposit>(calls, &mut other);
        for ((call, one), other) in calls.iter().zip(&one).zip(&other) {
            let (one, other) = (Reply(*one), Reply(*other));
            writeln!(out, "{} -> {one} | {other}", Shown(*call))?;
        }
        self.print_seats(out)
    }

    // The capacity and the standing of each seat.
    fn print_seats<W: Write>(&self, out: &mut W) -> io::Result<()> {
        for seat in 1..=7 {
            let one = Reply(self.deposit.seat(seat));
            let other = Reply(self.pool.seat(seat));
            writeln!(out, "seat {seat} -> {one} | {other}")?;
        }
        Ok(())
    }
}

fn main(rt: HostRuntime) -> io::Result<()> {
    let mut out = BufWriter::new(rt.alloc(), rt.stdout())?;
    let deposit = Deposit::new(Dollars(500)).unwrap();
    let Ok(pool) = Pool::new(&[Dollars(170), Dollars(233), Dollars(97)]) else {
        return Ok(());
    };
    let mut houses = Houses {
        deposit: Book::new(deposit),
        pool: Book::new(pool),
    };
    writeln!(out, "deposit 500 | pool 170 233 97")?;
    houses.run(&mut out, &calls::first_auction())?;
    houses.run(&mut out, &calls::losses())?;
    houses.run(&mut out, &calls::recovery())?;
    houses.run(&mut out, &calls::second_auction())?;
    houses.run(&mut out, &calls::more_losses())?;
    houses.run(&mut out, &calls::third_auction())?;
    out.flush()
}
