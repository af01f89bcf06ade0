// The ten calls with the numbers that they hand over, each number by itself, as a line of the console has it.
use auction::offer::Offer;
use lot::bid::Kind;
use share::units::Dollars;

#[derive(Clone, Copy)]
pub enum Call {
    Enrol {
        member: u16,
        fund: Dollars,
        assessment: Dollars,
    },
    TopUp {
        member: u16,
        fund: Dollars,
        assessment: Dollars,
    },
    Release(u16),
    Open(Offer),
    Excuse {
        member: u16,
        lot: u16,
    },
    Bid {
        member: u16,
        lot: u16,
        kind: Kind,
        size: u16,
        price: i32,
    },
    Close,
    Charge(Dollars),
    Recover(Dollars),
    Conclude,
}
