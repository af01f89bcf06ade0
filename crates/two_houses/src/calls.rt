// The calls that both books are to make, part by part; each part ends in Charging.
use auction::offer::Offer;
use auction::terms::Terms;
use book::calls::Call;
use lot::bid::Kind;
use share::units::Dollars;

// A function for each call, by its name.
fn enrol(member: u16, fund: u64, assessment: u64) -> Call {
    Call::Enrol {
        member,
        fund: Dollars(fund),
        assessment: Dollars(assessment),
    }
}

fn top_up(member: u16, fund: u64, assessment: u64) -> Call {
    Call::TopUp {
        member,
        fund: Dollars(fund),
        assessment: Dollars(assessment),
    }
}

fn standard(member: u16, lot: u16, size: u16, price: i32) -> Call {
    Call::Bid {
        member,
        lot,
        kind: Kind::Standard,
        size,
        price,
    }
}

fn all_or_nothing(member: u16, lot: u16, price: i32) -> Call {
    Call::Bid {
        member,
        lot,
        kind: Kind::AllOrNothing,
        size: 10_000,
        price,
    }
}

fn excuse(member: u16, lot: u16) -> Call {
    Call::Excuse { member, lot }
}

fn charge(amount: u64) -> Call {
    Call::Charge(Dollars(amount))
}

fn recover(amount: u64) -> Call {
    Call::Recover(Dollars(amount))
}

fn open(lots: &[Terms]) -> Call {
    Call::Open(Offer::of(lots))
}

// Four members, two lots, bids and excuses; three calls are refused.
pub(crate) fn first_auction() -> [Call; 17] {
    [
        enrol(1, 600, 500),
        enrol(2, 300, 200),
        enrol(3, 100, 150),
        enrol(4, 50, 40),
        enrol(4, 50, 40),
        open(&[
            Terms::new(4_000, 10_000, 4_000_000),
            Terms::new(6_000, 12_000, 2_000_000),
        ]),
        standard(1, 1, 6_000, -12_000_000),
        standard(2, 1, 3_000, -15_000_000),
        standard(3, 1, 2_000, -13_000_000),
        excuse(4, 1),
        standard(4, 1, 500, -11_000_000),
        all_or_nothing(1, 2, -9_000_000),
        standard(2, 2, 5_000, -10_777_777),
        standard(4, 2, 600, -14_000_000),
        excuse(4, 2),
        Call::Conclude,
        Call::Close,
    ]
}

// A loss that runs through the funds and the house into the assessments.
pub(crate) fn losses() -> [Call; 3] {
    [charge(707), charge(505), charge(606)]
}

// A recovery that leaves the house with a part of the loss.
pub(crate) fn recovery() -> [Call; 1] {
    [recover(551)]
}

// The loss is taken, and a second auction has one lot; the call behind its close is refused.
pub(crate) fn second_auction() -> [Call; 8] {
    [
        Call::Conclude,
        top_up(1, 90, 0),
        top_up(2, 70, 5),
        open(&[Terms::new(10_000, 15_000, 6)]),
        standard(1, 1, 10_000, 7),
        standard(2, 1, 7_000, 3),
        Call::Close,
        excuse(2, 1),
    ]
}

// More than there is, and what comes back of it.
pub(crate) fn more_losses() -> [Call; 2] {
    [charge(5_000), recover(1_077)]
}

// The loss is taken again, and a third auction shows what the house has left.
pub(crate) fn third_auction() -> [Call; 5] {
    [
        Call::Conclude,
        Call::Release(4),
        open(&[Terms::new(10_000, 10_000, 2)]),
        all_or_nothing(1, 1, -1),
        Call::Close,
    ]
}
