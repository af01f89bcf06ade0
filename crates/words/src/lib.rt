// Cuts a line of bytes into words, and reads the numbers that words write.
#![tactic(auto)]

ghost use Rattle.words.specs.Laws.{WordsLaw};
ghost use Rattle.words.specs.Names.{IsTextOf, SameNames};
ghost use Rattle.words.specs.Numbers.{natural_upto, signed_of};
ghost use Rattle.words.specs.Iterating.{words_left};
ghost use Rattle.words.specs.Words.{after_word, blank, word_count, word_of, words_of};
ghost use Rattle.std.specs.Prelude.{◌≡◌, ℕ, List, Option};

use std::str::from_utf8;

// Whether a byte stands between words.
fn is_blank(b: u8) -> bool
    ensures { result ≡ blank b }
{
    matches!(b, b' ' | b'\t' | b'\r')
}

// The first word of a line, empty where it has none, and what stands behind that word.
pub fn split_word(line: &[u8]) -> (&[u8], &[u8])
    ensures word { result.0.now ≡ word_of line.now }
    ensures rest { result.1.now ≡ after_word line.now }
{
    let blanks = line.iter().take_while(|b| is_blank(**b)).count();
    let line = &line[blanks..];
    let len = line.iter().take_while(|b| !is_blank(**b)).count();
    line.split_at(len)
}

// The words of a line, from the first on.
#[derive(Clone, Drop)]
pub struct Words<'a> {
    rest: &'a [u8],
}

impl<'a> Words<'a> {
    // The words of a line.
    pub fn new(line: &'a [u8]) -> Self
        ensures { words_left result ≡ words_of line.now }
    {
        Words { rest: line }
    }
}

impl<'a> Iterator for Words<'a> {
    ghost use Rattle.words.specs.Iterating.{words_left};
    ghost use Rattle.std.specs.Iterator.{item_count, YieldsFirstRef};

    type Item = &'a [u8];

    ghost next_gives = { YieldsFirstRef words_left };

    ghost remaining = { item_count words_left };

    fn next(&mut self) -> Option<&'a [u8]> {
        let (word, rest) = split_word(self.rest);
        self.rest = rest;
        if word.is_empty() { None } else { Some(word) }
    }
}

// How many words a line has.
pub fn count_words(line: &[u8]) -> usize
    ensures { result ≡ word_count line.now }
{
    Words::new(line).count()
}

// A word as a text: empty where it is none, as no name is.
pub fn text(word: &[u8]) -> &str
    ensures text { IsTextOf word.now result.now }
    ensures names { SameNames word.now result.now }
{
    from_utf8(word).unwrap_or("")
}

// The number that a word of digits writes, if it is at most `most`.
// A loop with `?`: `try_fold` has the same steps inside a closure, and reads no plainer.
pub fn natural(word: &[u8], most: u64) -> Option<u64>
    ensures { result ≡ natural_upto most word.now }
{
    if word.is_empty() {
        return None;
    }
    let mut n: u64 = 0;
    for b in word {
        if !b.is_ascii_digit() {
            return None;
        }
        n = n.checked_mul(10)?.checked_add(u64::from(*b - b'0'))?;
        if n > most {
            return None;
        }
    }
    Some(n)
}

// The number that a word of digits writes, with perhaps a `-` in front, if it fits 32 bits.
pub fn signed(word: &[u8]) -> Option<i32>
    ensures { result ≡ signed_of word.now }
{
    match word {
        [b'-', digits @ ..] => {
            let n = i64::try_from(natural(digits, 2_147_483_648)?).ok()?;
            i32::try_from(-n).ok()
        }
        _ => i32::try_from(natural(word, 2_147_483_647)?).ok(),
    }
}

// A type of numbers that words write. A caller that wants another limit calls `natural`.
pub trait Number: Sized {
    // what a word writes, if it writes a number of the type
    ghost written: { List ℕ → Option Self };

    // The number that a word writes.
    fn read(word: &[u8]) -> Option<Self>
        ensures { result ≡ written word.now };
}

impl Number for u16 {
    ghost written = { natural_upto 65535 };

    fn read(word: &[u8]) -> Option<u16> {
        u16::try_from(natural(word, u64::from(u16::MAX))?).ok()
    }
}

impl Number for u32 {
    ghost written = { natural_upto 4294967295 };

    fn read(word: &[u8]) -> Option<u32> {
        u32::try_from(natural(word, u64::from(u32::MAX))?).ok()
    }
}

impl Number for u64 {
    ghost written = { natural_upto 18446744073709551615 };

    fn read(word: &[u8]) -> Option<u64> {
        natural(word, u64::MAX)
    }
}

impl Number for i32 {
    ghost written = { signed_of };

    fn read(word: &[u8]) -> Option<i32> {
        signed(word)
    }
}

// What holds of every line and of every number.
pub fn words_laws()
    ensures { WordsLaw }
{}
