use crate::rule::share;
use crate::units::Dollars;

// 4 over the weights 2, 3, 2 gives 1, 1, 2.
#[test]
fn rounding_is_cumulated(rt: HostRuntime) {
    let weights = [Dollars(2), Dollars(3), Dollars(2)];
    assert_eq!(rt; share(4, &weights, 0), 1);
    assert_eq!(rt; share(4, &weights, 1), 1);
    assert_eq!(rt; share(4, &weights, 2), 2);
}
