//! The numbers of entries, and the numbers that denote none.
use crate::notch::Notch;
use kinds::{Counts, Faults, Flags, Kind, Reckoned, Refusal, Steps};

// That `n` denotes an entry of that very number.
fn stands<K: Kind>(n: u32) -> bool {
    K::from_number(n).is_some_and(|e| e.number() == n)
}

#[test]
fn steps_have_their_numbers(rt: HostRuntime) {
    let table = [
        (0, 0),
        (-1, 1),
        (1, 2),
        (2147483647, 4294967294),
        (-2147483648, 4294967295),
    ];
    for (s, n) in table {
        assert_eq!(rt; Steps::from(s).number(), n);
        assert_eq!(rt; Steps::from_number(n), Some(Steps::from(s)));
    }
}

#[test]
fn edges_of_every_kind(rt: HostRuntime) {
    for n in [0, 1, 4294967294, 4294967295] {
        assert!(rt; stands::<Counts>(n));
        assert!(rt; stands::<Steps>(n));
    }
    for n in 0..256 {
        assert!(rt; stands::<Flags>(n));
    }
    assert!(rt; !stands::<Flags>(256));
    for n in 0..17 {
        assert_eq!(rt; stands::<Faults>(n), n <= 10);
        assert_eq!(rt; stands::<Notch>(n), n <= 4);
    }
    assert!(rt; Faults::try_from(10).is_ok());
    assert_eq!(rt; Faults::try_from(11), Err(Refusal::NoSuchEntry));
    assert!(rt; Notch::try_from(4).is_ok());
    assert_eq!(rt; Notch::try_from(5), Err(Refusal::NoSuchEntry));
}

#[test]
fn kinds_are_known_by_number(rt: HostRuntime) {
    assert_eq!(rt; (Counts::WIDTH, Counts::CODE), (32, 1));
    assert_eq!(rt; (Steps::WIDTH, Steps::CODE), (32, 2));
    assert_eq!(rt; (Flags::WIDTH, Flags::CODE), (8, 3));
    assert_eq!(rt; (Faults::WIDTH, Faults::CODE), (4, 4));
    assert_eq!(rt; (Notch::WIDTH, Notch::CODE), (3, 200));
}

#[test]
fn joining_wraps_and_cancels(rt: HostRuntime) {
    let most = Steps::from(2147483647);
    let least = Steps::from(-2147483648);
    assert_eq!(rt; most.join(Steps::from(1)), least);
    assert_eq!(rt; least.inverse(), least);
    let wrapped = Counts::from(4294967295).join(Counts::from(2));
    assert_eq!(rt; wrapped, Counts::from(1));
    assert_eq!(rt; Counts::from(0).inverse(), Counts::from(0));
    let flags = Flags::from(0b1100).join(Flags::from(0b1010));
    assert_eq!(rt; flags, Flags::from(0b0110));
}

#[test]
fn refusals_have_their_numbers(rt: HostRuntime) {
    assert_eq!(rt; Refusal::NoPlace.number(), 1);
    assert_eq!(rt; Refusal::NoRoom.number(), 17);
    assert_eq!(rt; Refusal::NoMemory.number(), 24);
}
