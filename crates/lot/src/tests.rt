// Examples of averages, classes and senior parts, with numbers from oracle/classes.py.
use crate::bid::{Bid, Kind, Price};
use crate::bids::Bids;
use crate::class::Class;
use crate::pri::Pri;
use share::refusal::Refusal;
use share::units::{Dollars, Parts};
use std::test::Fail;

// Enters a Standard bid of member 1.
fn standard(lot: &mut Bids, size: u32, price: i32) -> Result<u16, Refusal> {
    let bid = Bid {
        member: 1,
        kind: Kind::Standard,
        size: Parts(size),
        price: Price(price),
    };
    lot.enter(bid)
}

// BP, or a price that nobody may bid where it is absent.
fn bp(lot: &Bids, requirement: u32) -> i32 {
    lot.best_price(1, Parts(requirement))
        .map_or(i32::MAX, |price| price.0)
}

#[test]
fn averages_round_down(rt: HostRuntime) -> Result<(), Fail> {
    let mut lot = Bids::new();
    assert_eq!(rt; standard(&mut lot, 1, -10)?, 1);
    assert_eq!(rt; standard(&mut lot, 4, -11)?, 2);
    assert_eq!(rt; bp(&lot, 3), -11);
    assert_eq!(rt; bp(&lot, 0), -10);
    assert_eq!(rt; bp(&lot, 6), i32::MAX);
    Ok(())
}

#[test]
fn thresholds(rt: HostRuntime) -> Result<(), Fail> {
    let pri = Pri::new(4_000_000)?;
    let rows = [
        (-13_999_999, Class::Senior, 10),
        (-14_000_000, Class::Split, 10),
        (-15_000_000, Class::Split, 7),
        (-18_000_000, Class::Split, 0),
        (-18_000_001, Class::Subordinate, 0),
    ];
    for (bp, class, senior) in rows {
        let earned = Some(Price(bp));
        assert_eq!(rt; pri.class(Price(-12_000_000), Parts(5000), earned), class);
        assert_eq!(rt;
            pri.tranches(Price(-12_000_000), Parts(5000), earned, Dollars(10))
                .senior
                .0,
            senior
        );
    }
    Ok(())
}
