// Reads a sheet of lots from standard input, line by line, and prints what becomes of each lot.
#![tactic(auto)]

mod command;

use command::Command;
use lot::bid::Bid;
use lot::bids::Bids;
use lot::bids::price::Cleared;
use share::units::Parts;
use std::fmt::Display;
use std::io;
use std::io::{BufRead, BufReader, BufWriter, Write};

// A sheet as far as it was read: the lot that is open, and how many lots and lines there were.
// They are counted up to the greatest number, since no bound on lines is known.
#[derive(Clone, Copy, Default)]
struct Sheet {
    open: Option<Bids>,
    lots: u64,
    lines: u64,
}

impl Sheet {
    // Does what a line asks for.
    fn read<W: Write>(&mut self, out: &mut W, line: &[u8]) -> io::Result<()> {
        self.lines = self.lines.saturating_add(1);
        match Command::parse(line) {
            Ok(Command::Nothing) => Ok(()),
            Ok(Command::Lot) => {
                self.end(out)?;
                self.open = Some(Bids::new());
                self.lots = self.lots.saturating_add(1);
                Ok(())
            }
            Ok(Command::Bid(bid)) => self.enter(out, bid),
            Err(fault) => self.error(out, fault),
        }
    }

    // Enters a bid in the lot that is open.
    fn enter<W: Write>(&mut self, out: &mut W, bid: Bid) -> io::Result<()> {
        let Some(mut bids) = self.open else {
            return self.error(out, "a bid before the first lot");
        };
        match bids.enter(bid) {
            Ok(_) => {
                self.open = Some(bids);
                Ok(())
            }
            Err(refusal) => writeln!(out, "line {}: {refusal}", self.lines),
        }
    }

    fn error<W: Write>(&self, out: &mut W, reason: impl Display + Drop) -> io::Result<()> {
        writeln!(out, "line {}: error: {reason}", self.lines)
    }

    // Ends the lot that is open, if there is one: clears it and prints what became of it.
    fn end<W: Write>(&self, out: &mut W) -> io::Result<()> {
        let Some(bids) = self.open else {
            return Ok(());
        };
        writeln!(out, "lot {}", self.lots)?;
        let allocations = bids.allocations();
        let mut allocated: u64 = 0;
        for (place, (bid, parts)) in bids.entries().iter().zip(allocations.parts()).enumerate() {
            allocated = allocated.saturating_add(u64::from(parts.0));
            report(out, place.saturating_add(1), bid, *parts)?;
        }
        match bids.clearing() {
            None => writeln!(out, "price none")?,
            Some(Cleared { price, by }) => writeln!(out, "price {price} by {by}")?,
        }
        writeln!(out, "allocated {allocated}")
    }
}

// Prints a bid and what it gets.
fn report<W: Write>(out: &mut W, entry: usize, bid: &Bid, parts: Parts) -> io::Result<()> {
    let Bid {
        member,
        kind,
        size,
        price,
    } = *bid;
    writeln!(out, "bid {entry} {member} {kind} {size} {price} -> {parts}")
}

fn main(rt: HostRuntime) -> io::Result<()> {
    let mut out = BufWriter::new(rt.alloc(), rt.stdout())?;
    let mut sheet = Sheet::default();
    for line in BufReader::new(rt.alloc(), rt.stdin())?.split(rt.alloc(), b'\n') {
        sheet.read(&mut out, line?.as_slice())?;
    }
    sheet.end(&mut out)?;
    out.flush()
}
