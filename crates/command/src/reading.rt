// Words read as the values of a command, each by its own fault where it is none.
ghost use Rattle.command.specs.Readings.{bid_of, counted, dollars_of, kind_of, number_of, one_of, pri_of, price_of, three_of, two_of};
ghost use Rattle.command.specs.declared.fault.Fault.{Fault};
ghost use Rattle.std.specs.Prelude.{◌≡◌, ℕ, List, Ok, Result};

use crate::fault::Fault;
use book::calls::Call;
use lot::bid::Kind;
use share::units::Dollars;
use words::{Number, count_words, split_word, text};

// A type of values that words write.
pub(crate) trait FromWord: Copy {
    // what a word is read as, or its fault
    ghost word_read: { List ℕ → Result Self Fault };

    // The value that a word writes.
    fn from_word(word: &[u8]) -> Result<Self, Fault>
        ensures { result ≡ word_read word.now };
}

// A number of a member, a lot, an entry, a seat, or of parts.
impl FromWord for u16 {
    ghost word_read = { number_of };

    fn from_word(word: &[u8]) -> Result<u16, Fault> {
        u16::read(word).ok_or(Fault::Number)
    }
}

// A price range, PRI.
impl FromWord for u32 {
    ghost word_read = { pri_of };

    fn from_word(word: &[u8]) -> Result<u32, Fault> {
        u32::read(word).ok_or(Fault::Pri)
    }
}

// A price.
impl FromWord for i32 {
    ghost word_read = { price_of };

    fn from_word(word: &[u8]) -> Result<i32, Fault> {
        i32::read(word).ok_or(Fault::Price)
    }
}

// An amount of dollars.
impl FromWord for Dollars {
    ghost word_read = { dollars_of };

    fn from_word(word: &[u8]) -> Result<Dollars, Fault> {
        let n = u64::read(word).ok_or(Fault::Amount)?;
        Ok(Dollars(n))
    }
}

// The kind of a bid.
impl FromWord for Kind {
    ghost word_read = { kind_of };

    fn from_word(word: &[u8]) -> Result<Kind, Fault> {
        Kind::named(text(word)).ok_or(Fault::Kind)
    }
}

// Sees that a line has just so many words.
fn exactly(count: usize, rest: &[u8]) -> Result<(), Fault>
    ensures { result ≡ counted count rest.now (Ok tt) }
{
    if count_words(rest) == count {
        Ok(())
    } else {
        Err(Fault::Count)
    }
}

// No word.
pub(crate) fn none(rest: &[u8]) -> Result<(), Fault>
    ensures { result ≡ counted 0 rest.now (Ok tt) }
{
    exactly(0, rest)
}

// One value.
pub(crate) fn one<A: FromWord>(rest: &[u8]) -> Result<A, Fault>
    ensures { result ≡ one_of A.word_read rest.now }
{
    exactly(1, rest)?;
    let (word, _) = split_word(rest);
    A::from_word(word)
}

// Two values.
pub(crate) fn two<A: FromWord, B: FromWord>(rest: &[u8]) -> Result<(A, B), Fault>
    ensures { result ≡ two_of A.word_read B.word_read rest.now }
{
    exactly(2, rest)?;
    let (first, rest) = split_word(rest);
    let (second, _) = split_word(rest);
    Ok((A::from_word(first)?, B::from_word(second)?))
}

// Three values.
pub(crate) fn three<A: FromWord, B: FromWord, C: FromWord>(rest: &[u8]) -> Result<(A, B, C), Fault>
    ensures { result ≡ three_of A.word_read B.word_read C.word_read rest.now }
{
    exactly(3, rest)?;
    let (first, rest) = split_word(rest);
    let (second, rest) = split_word(rest);
    let (third, _) = split_word(rest);
    Ok((
        A::from_word(first)?,
        B::from_word(second)?,
        C::from_word(third)?,
    ))
}

// A bid. Its five words are written out, since a function over five types would serve it alone.
pub(crate) fn bid(rest: &[u8]) -> Result<Call, Fault>
    ensures { result ≡ bid_of rest.now }
{
    exactly(5, rest)?;
    let (member, rest) = split_word(rest);
    let (lot, rest) = split_word(rest);
    let (kind, rest) = split_word(rest);
    let (size, rest) = split_word(rest);
    let (price, _) = split_word(rest);
    Ok(Call::Bid {
        member: u16::from_word(member)?,
        lot: u16::from_word(lot)?,
        kind: Kind::from_word(kind)?,
        size: u16::from_word(size)?,
        price: i32::from_word(price)?,
    })
}
