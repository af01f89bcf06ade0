// Has a full book go through as many auctions as its argument says, and prints the sums of what its calls answer.
#![tactic(auto)]

use std::io::{BufWriter, Write};
use std::{env, io};

mod draws;
mod drill;
mod sums;

use drill::Drill;

// The first word behind the program's name; 1 where there is no such number.
fn auctions(rt: &HostRuntime) -> io::Result<u32> {
    let word = env::args(rt)?.nth(1);
    Ok(
        word.and_then(|word| word.as_str().parse().ok())
            .unwrap_or(1),
    )
}

fn main(rt: HostRuntime) -> io::Result<()> {
    let auctions = auctions(&rt)?;
    let mut drill = Drill::new();
    for _ in 0..auctions {
        drill.auction();
    }
    let mut out = BufWriter::new(rt.alloc(), rt.stdout())?;
    writeln!(out, "auctions {auctions}")?;
    write!(out, "{}", drill.sums)?;
    out.flush()
}
