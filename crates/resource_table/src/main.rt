// Runs one list of calls over a deposit and over pools of 1, 3 and 32 payers, and prints what each call leaves.
#![tactic(auto)]

use resource::deposit::Deposit;
use resource::pool::Pool;
use resource::resource::Resource;
use share::refusal::Refusal;
use share::units::Dollars;
use std::io::{BufWriter, Write};
use std::{array, fmt, io};

#[derive(Clone, Copy)]
enum Call {
    Stand(u64),
    Fill(u64),
    WriteOff,
}

impl fmt::Display for Call {
    fn fmt<W: fmt::Write>(&self, f: &mut fmt::Formatter<W>) -> fmt::Result {
        match self {
            Call::Stand(n) => write!(f, "stand {n}"),
            Call::Fill(n) => write!(f, "fill {n}"),
            Call::WriteOff => write!(f, "write off"),
        }
    }
}

// The calls for a resource of a first capacity.
fn calls(first: u64) -> [Call; 13] {
    [
        Call::Stand(4),
        Call::Stand(3),
        Call::Stand(first.saturating_add(1)),
        Call::Fill(first.saturating_add(5)),
        Call::Stand(first / 2),
        Call::WriteOff,
        Call::Stand(first),
        Call::Fill(1),
        Call::WriteOff,
        Call::Fill(first),
        Call::WriteOff,
        Call::Fill(3),
        Call::Stand(0),
    ]
}

// The number of a refusal, to be printed: 0 where there is none.
fn number_of<T: Drop>(answer: Result<T, Refusal>) -> u8 {
    answer.err().map_or(0, Refusal::number)
}

// Makes a call on any resource.
fn make<R: Resource>(resource: &mut R, call: Call) -> Result<(), Refusal> {
    match call {
        Call::Stand(n) => resource.stand_at(Dollars(n)),
        Call::Fill(n) => {
            resource.fill(Dollars(n));
            Ok(())
        }
        Call::WriteOff => {
            resource.settle();
            Ok(())
        }
    }
}

// Makes a call on any resource, and prints it with the number of its refusal and what it leaves.
fn run<W: Write, R: Resource>(out: &mut W, resource: &mut R, call: Call) -> io::Result<()> {
    let number = number_of(make(resource, call));
    let capacity = resource.capacity();
    let standing = resource.standing();
    write!(
        out,
        "{call} -> {number} capacity {capacity} standing {standing}"
    )
}

// What a payer bears; nothing where there is no such payer.
fn borne(pool: &Pool, payer: u16) -> u64 {
    pool.bears(payer).map_or(0, |dollars| dollars.0)
}

// What each payer of a small pool bears.
fn print_each<W: Write>(out: &mut W, pool: &Pool) -> io::Result<()> {
    write!(out, " bears [{}", borne(pool, 1))?;
    for payer in 2..=pool.count() {
        write!(out, ", {}", borne(pool, payer))?;
    }
    writeln!(out, "]")
}

// What three payers of a large pool bear, and all together.
fn print_some<W: Write>(out: &mut W, pool: &Pool) -> io::Result<()> {
    let sum = (1..=pool.count()).fold(0u64, |sum, payer| sum.saturating_add(borne(pool, payer)));
    let first = borne(pool, 1);
    let middle = borne(pool, 16);
    let last = borne(pool, 32);
    writeln!(out, " bears 1:{first} 16:{middle} 32:{last} sum {sum}")
}

fn print_deposit<W: Write>(out: &mut W) -> io::Result<()> {
    writeln!(out, "deposit 500")?;
    let Ok(mut deposit) = Deposit::new(Dollars(500)) else {
        return Ok(());
    };
    for call in calls(500) {
        run(out, &mut deposit, call)?;
        writeln!(out)?;
    }
    Ok(())
}

fn print_pool<W: Write>(out: &mut W, weights: &[Dollars]) -> io::Result<()> {
    let Ok(mut pool) = Pool::new(weights) else {
        return Ok(());
    };
    for call in calls(pool.capacity().0) {
        run(out, &mut pool, call)?;
        if weights.len() <= 3 {
            print_each(out, &pool)?;
        } else {
            print_some(out, &pool)?;
        }
    }
    Ok(())
}

// The weights k × k × 97,531 of the payers k = 1 to 32.
fn squares() -> [Dollars; 32] {
    array::from_fn(|place| {
        let k = place as u64 + 1;
        Dollars(k * k * 97_531)
    })
}

fn print_refusals<W: Write>(out: &mut W) -> io::Result<()> {
    writeln!(out, "refusals")?;
    for paid in [3_200_000_000, 3_200_000_001] {
        let number = number_of(Deposit::new(Dollars(paid)));
        writeln!(out, "deposit {paid} -> {number}")?;
    }
    let none = number_of(Pool::new(&[]));
    writeln!(out, "pool of 0 weight 1 -> {none}")?;
    let many = number_of(Pool::new(&[Dollars(1); 33]));
    writeln!(out, "pool of 33 weight 1 -> {many}")?;
    for weight in [100_000_000, 100_000_001] {
        let number = number_of(Pool::new(&[Dollars(weight)]));
        writeln!(out, "pool of 1 weight {weight} -> {number}")?;
    }
    print_payers(out)
}

// Payers that a pool of 3 has not.
fn print_payers<W: Write>(out: &mut W) -> io::Result<()> {
    let Ok(pool) = Pool::new(&[Dollars(2), Dollars(3), Dollars(2)]) else {
        return Ok(());
    };
    for payer in [0, 4] {
        let weight = number_of(pool.weight(payer));
        let bears = number_of(pool.bears(payer));
        writeln!(out, "pool of 3 weight of payer {payer} -> {weight}")?;
        writeln!(out, "pool of 3 bears of payer {payer} -> {bears}")?;
    }
    Ok(())
}

fn main(rt: HostRuntime) -> io::Result<()> {
    let mut out = BufWriter::new(rt.alloc(), rt.stdout())?;
    print_deposit(&mut out)?;
    writeln!(out, "pool of 1: weight 7")?;
    print_pool(&mut out, &[Dollars(7)])?;
    writeln!(out, "pool of 3: weights 2 3 2")?;
    print_pool(&mut out, &[Dollars(2), Dollars(3), Dollars(2)])?;
    writeln!(out, "pool of 32: weights k*k*97531")?;
    print_pool(&mut out, &squares())?;
    print_refusals(&mut out)?;
    out.flush()
}
