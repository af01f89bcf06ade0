// What a line of a lot sheet asks for, or why it is an error.
ghost use Rattle.lot_sheet.specs.Commands.{bid_of, command_of, Four, lot_of, reason_of};
ghost use Rattle.lot_sheet.specs.Laws.{SheetLaw};
ghost use Rattle.std.specs.Prelude.{◌≡◌, Some};

use lot::bid::{Bid, Kind, Price};
use share::units::Parts;
use std::error::Error;
use std::fmt;
use words::{Number, split_word, text};

#[derive(Clone, Copy)]
pub enum Command {
    // an empty line or a comment
    Nothing,
    // a new lot
    Lot,
    // a bid in the lot
    Bid(Bid),
}

// Why a line is an error, in the order in which the reasons are looked for.
#[derive(Clone, Copy, PartialEq, Eq, Debug)]
pub enum Fault {
    NoSuchCommand,
    LotWords,
    BidWords,
    Member,
    Kind,
    Size,
    Price,
}

impl Fault {
    // The reason in words.
    pub fn reason(self) -> &'static str
        ensures { result.now ≡ reason_of self }
    {
        match self {
            Fault::NoSuchCommand => "no such command",
            Fault::LotWords => "a lot line has one word",
            Fault::BidWords => "a bid line has five words",
            Fault::Member => "the member is not a number from 0 to 65535",
            Fault::Kind => "the kind is not standard or all",
            Fault::Size => "the size is not a number from 0 to 65535",
            Fault::Price => "the price is not a number from -2147483648 to 2147483647",
        }
    }
}

// By hand, since a derived `Display` promises nothing of what it writes.
impl fmt::Display for Fault {
    ghost output = { λ x. Some (reason_of x) };

    fn fmt<W: fmt::Write>(&self, f: &mut fmt::Formatter<W>) -> fmt::Result {
        f.write_str(self.reason())
    }
}

impl Error for Fault {}

impl Command {
    // What a line asks for.
    pub fn parse(line: &[u8]) -> Result<Command, Fault>
        ensures { result ≡ command_of line.now }
    {
        let (first, rest) = split_word(line);
        match first {
            [] | [b'#', ..] => Ok(Command::Nothing),
            _ => match text(first) {
                "lot" => lot(rest),
                "bid" => bid(rest),
                _ => Err(Fault::NoSuchCommand),
            },
        }
    }
}

// The words of a bid line behind `bid`.
#[derive(Clone, Copy)]
struct BidWords<'a> {
    member: &'a [u8],
    kind: &'a [u8],
    size: &'a [u8],
    price: &'a [u8],
}

// A lot line, of which `rest` stands behind `lot`.
fn lot(rest: &[u8]) -> Result<Command, Fault>
    ensures { result ≡ lot_of rest.now }
{
    let (extra, _) = split_word(rest);
    if extra.is_empty() {
        Ok(Command::Lot)
    } else {
        Err(Fault::LotWords)
    }
}

// The words behind `bid`, if they are four. By `split_word`: with five calls of `Words::next` this function alone took minutes to check.
fn bid_words(rest: &[u8]) -> Option<BidWords<'_>>
    ensures { Four rest.now result }
{
    let (member, rest) = split_word(rest);
    let (kind, rest) = split_word(rest);
    let (size, rest) = split_word(rest);
    let (price, rest) = split_word(rest);
    let (extra, _) = split_word(rest);
    if price.is_empty() || !extra.is_empty() {
        return None;
    }
    Some(BidWords {
        member,
        kind,
        size,
        price,
    })
}

// A bid line, of which `rest` stands behind `bid`.
fn bid(rest: &[u8]) -> Result<Command, Fault>
    ensures { result ≡ bid_of rest.now }
{
    let words = bid_words(rest).ok_or(Fault::BidWords)?;
    let member = u16::read(words.member).ok_or(Fault::Member)?;
    let kind = Kind::named(text(words.kind)).ok_or(Fault::Kind)?;
    let size = u16::read(words.size).ok_or(Fault::Size)?;
    let price = i32::read(words.price).ok_or(Fault::Price)?;
    Ok(Command::Bid(Bid {
        member,
        kind,
        size: Parts(u32::from(size)),
        price: Price(price),
    }))
}

// What holds of every line of a lot sheet.
pub fn sheet_laws()
    ensures { SheetLaw }
{}
