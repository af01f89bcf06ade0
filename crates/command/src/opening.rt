// The lots that an `open` hands over.
ghost use Rattle.command.specs.Opening.{lots_by, offer_of};
ghost use Rattle.command.specs.Readings.{given};
ghost use Rattle.command.specs.Steps.{ReadLot};
ghost use Rattle.std.specs.Prelude.{◌≡◌, Ok, take};

use crate::fault::Fault;
use crate::reading::FromWord;
use arrayvec::ArrayVec;
use auction::offer::Offer;
use auction::terms::Terms;
use words::{count_words, split_word};

// The offer that words write, three a lot, of one lot or more.
// Behind `min` the cast loses nothing: `u16::try_from` would bring back a case that cannot be.
pub(crate) fn offer(rest: &[u8]) -> Result<Offer, Fault>
    ensures { result ≡ offer_of rest.now }
{
    let words = count_words(rest);
    if words == 0 || words % 3 != 0 {
        return Err(Fault::Count);
    }
    let lots = words / 3;
    let held = first_four(lots, rest)?;
    let terms = Offer::of(&held).terms;
    Ok(Offer {
        count: lots.min(65_535) as u16,
        terms,
    })
}

// The terms of the first four lots. The words of the others are read too.
fn first_four(lots: usize, line: &[u8]) -> Result<ArrayVec<Terms, 4>, Fault>
    ensures { result ≡ given (lots_by lots line.now) (λ ls. Ok (record { items = take 4 ls })) }
{
    let mut held = ArrayVec::new();
    let mut rest = line;
    for _ in 0..lots {
        let (lot, behind) = first_lot(rest)?;
        if !held.is_full() {
            held.push(lot);
        }
        rest = behind;
    }
    Ok(held)
}

// The terms of the first lot, and what stands behind its three words.
fn first_lot(rest: &[u8]) -> Result<(Terms, &[u8]), Fault>
    ensures { ReadLot rest.now result }
{
    let (weight, rest) = split_word(rest);
    let (requirement, rest) = split_word(rest);
    let (range, rest) = split_word(rest);
    let terms = Terms {
        weight: u16::from_word(weight)?,
        requirement: u16::from_word(requirement)?,
        pri: u32::from_word(range)?,
    };
    Ok((terms, rest))
}
