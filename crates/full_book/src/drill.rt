// A full book, and the calls of an auction on it.
use crate::draws::Draws;
use crate::sums::Sums;
use auction::member::Member;
use auction::offer::Offer;
use auction::terms::Terms;
use book::book::Book;
use book::calls::Call;
use lot::bid::Kind;
use resource::deposit::Deposit;
use share::units::Dollars;

const MEMBERS: u16 = 32;

const HOUSE: Dollars = Dollars(500_000_000);
// of a recovery and four charges
const GROUPS: u16 = 250;

#[derive(Drop)]
pub(crate) struct Drill {
    book: Book<Deposit>,
    draws: Draws,
    pub sums: Sums,
}

// What a member has at the beginning of each auction.
fn first(member: u16) -> Member {
    Member {
        fund: Dollars(70_000_000 + 500_000 * u64::from(member)),
        assessment: Dollars(60_000_000 + 700_000 * u64::from(member)),
    }
}

impl Drill {
    // A book with all its members.
    pub(crate) fn new() -> Drill {
        let house = Deposit::new(HOUSE).unwrap();
        let mut drill = Drill {
            book: Book::new(house),
            draws: Draws(1),
            sums: Sums::default(),
        };
        for member in 1..=MEMBERS {
            let Member { fund, assessment } = first(member);
            drill.make(Call::Enrol {
                member,
                fund,
                assessment,
            });
        }
        drill
    }

    fn make(&mut self, call: Call) {
        let answer = self.book.apply::<Deposit>(&call);
        self.sums.add(answer);
    }

    // An auction from its open to the top ups behind its conclude.
    pub(crate) fn auction(&mut self) {
        self.open();
        for lot in 1..=4 {
            self.bids(lot);
        }
        self.make(Call::Close);
        for group in 0..GROUPS {
            self.losses(group);
        }
        self.make(Call::Conclude);
        for member in 1..=MEMBERS {
            self.top_up(member);
        }
    }

    fn open(&mut self) {
        self.make(Call::Open(Offer::of(&[
            Terms::new(1_000, 10_000, 2_000_000),
            Terms::new(2_000, 12_000, 4_000_000),
            Terms::new(3_000, 13_000, 4_000_000),
            Terms::new(4_000, 15_000, 6_000_000),
        ])));
    }

    // Two bids of each member; every eighth makes its second bid All or Nothing.
    fn bids(&mut self, lot: u16) {
        for member in 1..=MEMBERS {
            self.bid(member, lot, Kind::Standard);
        }
        for member in 1..=MEMBERS {
            if member % 8 == 1 {
                self.bid(member, lot, Kind::AllOrNothing);
            } else {
                self.bid(member, lot, Kind::Standard);
            }
        }
    }

    // Every fifth member offers much less than the others, and the last one bids for too little.
    fn bid(&mut self, member: u16, lot: u16, kind: Kind) {
        let mut price = -12_000_000 - self.draws.below(5_000_000) as i32;
        if member % 5 == 0 {
            price -= 7_000_000;
        }
        let mut size = 100;
        if member < MEMBERS {
            size = 240 + self.draws.below(161) as u16;
        }
        if kind == Kind::AllOrNothing {
            price -= 3_000_000;
            size = 10_000;
        }
        self.make(Call::Bid {
            member,
            lot,
            kind,
            size,
            price,
        });
    }

    // A recovery and four charges. The net loss grows in the first half of the groups and falls in the second;
    // the last recovery returns it all, and the charges behind it are greater.
    fn losses(&mut self, group: u16) {
        let returned = if group == GROUPS - 1 {
            10_000_000_000
        } else if group < GROUPS / 2 {
            u64::from(self.draws.below(10_000_000))
        } else {
            u64::from(self.draws.below(180_000_000))
        };
        self.make(Call::Recover(Dollars(returned)));
        let least = if group == GROUPS - 1 { 150_000_000 } else { 0 };
        for _ in 0..4 {
            let more = u64::from(self.draws.below(25_000_000));
            self.make(Call::Charge(Dollars(least + more)));
        }
    }

    // Gives a member what the auction took.
    fn top_up(&mut self, member: u16) {
        let Ok(held) = self.book.member(member) else {
            return;
        };
        let first = first(member);
        let fund = Dollars(first.fund.0.saturating_sub(held.fund.0));
        let assessment = Dollars(first.assessment.0.saturating_sub(held.assessment.0));
        self.sums.add_top_up(member, fund, assessment);
        self.make(Call::TopUp {
            member,
            fund,
            assessment,
        });
    }
}
