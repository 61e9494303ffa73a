// The rules on examples, through the parts 0 to 3 of `Four`.
use crate::{Four, start};
use kinds::kind::Kind;
use kinds::operation::{Argument, Verb};

// What worker 0 brings with mark 0.
fn plain(number: i64) -> Argument {
    Argument {
        number,
        worker: 0,
        mark: 0,
    }
}

#[test]
fn counts_stop_at_the_top(rt: HostRuntime) {
    let mut value = start();
    value.apply(0, Verb::Put, plain(i64::MAX));
    value.apply(0, Verb::Add, plain(1));
    assert_eq!(rt; value.shown(0, 0), i64::MAX);
}

#[test]
fn leans_wrap(rt: HostRuntime) {
    let mut value = start();
    value.apply(1, Verb::Put, plain(i64::MAX));
    value.apply(1, Verb::Add, plain(1));
    assert_eq!(rt; value.shown(1, 0), i64::MIN);
}

// Both parts then show one triple, and its order, worker and mark.
#[test]
fn of_one_order_the_greater_worker_stays(rt: HostRuntime) {
    let lesser = Argument {
        number: 50,
        worker: 0,
        mark: 7,
    };
    let greater = Argument {
        number: 50,
        worker: 1,
        mark: 3,
    };
    for (part, verb) in [(2, Verb::Last), (3, Verb::Top)] {
        let mut one = start();
        one.apply(part, verb, lesser);
        one.apply(part, verb, greater);
        let mut other = start();
        other.apply(part, verb, greater);
        other.apply(part, verb, lesser);
        for value in [one, other] {
            assert_eq!(rt; value.shown(part, 0), 1);
            assert_eq!(rt; value.shown(part, 1), 50);
            assert_eq!(rt; value.shown(part, 2), 1);
            assert_eq!(rt; value.shown(part, 3), 3);
        }
    }
}

#[test]
fn the_ten_highest_orders_stay(rt: HostRuntime) {
    let mut value = start();
    for order in 1..12 {
        value.apply(3, Verb::Top, plain(order));
    }
    assert_eq!(rt; value.shown(3, 0), 10);
    for i in 0..10u8 {
        assert_eq!(rt; value.shown(3, 1 + 3 * i), 11 - i64::from(i));
    }
}
