//! Books compared.
use crate::seasons::played;
use kinds::Steps;
use ledgers::{Call, agrees};
use std::alloc::Global;
use std::process::Abort;
use std::test::Fail;

// That the books of two seasons agree, or do not, both ways and whatever their units and tables.
fn compared(
    rt: &impl Abort,
    heap: Global,
    first: &[Call<i32>],
    second: &[Call<i32>],
    same: bool,
) -> Result<(), Fail> {
    let a = played(heap, 1, 4, first, &Steps::from)?.book;
    let b = played(heap, 2, 9, second, &Steps::from)?.book;
    let told = (agrees(&a, &b), agrees(&b, &a), agrees(&a, &a));
    assert_eq!(rt; told, (same, same, true));
    Ok(())
}

const PLAIN: [Call<i32>; 3] = [Call::Enter(5), Call::Enter(7), Call::Enter(-2)];

const ALTERED: [Call<i32>; 9] = [
    Call::Enter(1),
    Call::Enter(7),
    Call::Strike,
    Call::Shift(1, 4),
    Call::Enter(0),
    Call::Correct(2, 7),
    Call::Enter(-2),
    Call::Enter(9),
    Call::Strike,
];

const PARKED: [Call<i32>; 5] = [
    Call::Enter(5),
    Call::Park,
    Call::Shift(2, 12),
    Call::Restore,
    Call::Correct(3, -2),
];

#[test]
fn equal_entries_agree_however_they_came(rt: HostRuntime) -> Result<(), Fail> {
    let heap = rt.alloc();
    compared(&rt, heap, &PLAIN, &PLAIN, true)?;
    compared(&rt, heap, &PLAIN, &ALTERED, true)?;
    compared(&rt, heap, &PLAIN, &PARKED, true)
}

#[test]
fn a_slip_given_up_is_no_entry(rt: HostRuntime) -> Result<(), Fail> {
    let heap = rt.alloc();
    let entered = [Call::Enter(5), Call::Enter(-5)];
    compared(&rt, heap, &entered, &[Call::Enter(5), Call::Park], true)?;
    compared(
        &rt,
        heap,
        &entered,
        &[Call::Enter(5), Call::Park, Call::GiveUp],
        true,
    )
}

#[test]
fn one_entry_apart_does_not_agree(rt: HostRuntime) -> Result<(), Fail> {
    let heap = rt.alloc();
    for (a, b, c) in [
        (6, 7, -2),
        (5, 8, -2),
        (5, 7, -3),
        (7, 5, -2),
        (4, 8, -2),
        (5, -2, 7),
    ] {
        let other = [Call::Enter(a), Call::Enter(b), Call::Enter(c)];
        compared(&rt, heap, &PLAIN, &other, false)?;
    }
    Ok(())
}

#[test]
fn one_count_apart_does_not_agree(rt: HostRuntime) -> Result<(), Fail> {
    let heap = rt.alloc();
    let zero = [Call::Enter(0)];
    compared(&rt, heap, &[], &zero, false)?;
    compared(&rt, heap, &zero, &[Call::Enter(0), Call::Enter(0)], false)?;
    compared(&rt, heap, &PLAIN, &[Call::Enter(5), Call::Enter(7)], false)
}
