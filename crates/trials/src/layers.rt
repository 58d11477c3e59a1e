//! Tables, excerpts and totals, one over the other.
use crate::notch::Notch;
use kinds::{Kind, Refusal, Steps};
use runs::{Excerpt, Parting, Run, Totals, first_parting, position, total};
use std::alloc::Global;
use std::process::Abort;
use std::test::Fail;

// The number of the entry at a place.
fn number_at<R: Run>(run: &R, place: u32) -> Result<u32, Refusal> {
    run.at(place).map(|entry| entry.number())
}

// That a run has just these numbers, and none before its first place or past its last.
fn has<R: Run>(rt: &impl Abort, run: &R, numbers: &[u32]) {
    assert_eq!(rt; run.count() as usize, numbers.len());
    for (place, number) in (1u32..).zip(numbers) {
        assert_eq!(rt; number_at(run, place), Ok(*number));
    }
    for place in [0, run.count().saturating_add(1), u32::MAX] {
        assert_eq!(rt; number_at(run, place), Err(Refusal::NoPlace));
    }
}

fn drives() -> [Steps; 5] {
    [40, -3, 7, 0, -44].map(Steps::from)
}

#[test]
fn tables_are_read_at_places(rt: HostRuntime) {
    let table: &[Steps] = &drives();
    has(&rt, &table, &[80, 5, 14, 0, 87]);
    has(&rt, &&table, &[80, 5, 14, 0, 87]);
    let none: &[Steps] = &[];
    has(&rt, &none, &[]);
}

#[test]
fn excerpts_leave_out_both_ends(rt: HostRuntime) {
    let table: &[Steps] = &drives();
    has(&rt, &Excerpt::new(table, 0, 5), &[80, 5, 14, 0, 87]);
    has(&rt, &Excerpt::new(table, 1, 3), &[5, 14, 0]);
    has(&rt, &Excerpt::new(table, 3, 9), &[0, 87]);
    has(&rt, &Excerpt::new(table, 5, 1), &[]);
    has(&rt, &Excerpt::new(table, 4294967295, 4294967295), &[]);
    has(&rt, &Excerpt::new(table, 2, 0), &[]);
    has(
        &rt,
        &Excerpt::new(Excerpt::new(table, 1, 4), 1, 2),
        &[14, 0],
    );
}

#[test]
fn totals_join_and_wrap(rt: HostRuntime) -> Result<(), Fail> {
    let heap = rt.alloc();
    let table: &[Steps] = &drives();
    has(&rt, &Totals::over(heap, &table)?, &[80, 74, 88, 88, 0]);
    has(
        &rt,
        &Totals::over(heap, &Excerpt::new(table, 1, 2))?,
        &[5, 8],
    );
    has(
        &rt,
        &Excerpt::new(Totals::over(heap, &table)?, 1, 2),
        &[74, 88],
    );
    has(
        &rt,
        &Totals::over(heap, &Totals::over(heap, &table)?)?,
        &[80, 154, 242, 330, 330],
    );
    let wide: &[Steps] = &[2147483647, 2147483647, 2].map(Steps::from);
    has(&rt, &Totals::over(heap, &wide)?, &[4294967294, 3, 0]);
    let none: &[Steps] = &[];
    has(&rt, &Totals::over(heap, &none)?, &[]);
    Ok(())
}

#[test]
fn positions_and_where_they_part(rt: HostRuntime) {
    let table: &[Steps] = &drives();
    for (i, p) in [(0, 0), (1, 40), (2, 37), (5, 0)] {
        assert_eq!(rt; position(&table, i), Ok(Steps::from(p)));
        assert_eq!(rt; total(&table, i), Ok(Steps::from(p)));
    }
    assert_eq!(rt; position(&table, 6), Err(Refusal::NoPlace));
    let front = Excerpt::new(table, 0, 3);
    assert_eq!(rt; first_parting(&table, &front), None);
    let other: &[Steps] = &[40, -3, 4].map(Steps::from);
    let parting = Parting {
        after: 3,
        first: Steps::from(44),
        second: Steps::from(41),
    };
    assert_eq!(rt; first_parting(&table, &other), Some(parting));
    assert_eq!(rt; parting.gap(), 3);
    let none: &[Steps] = &[];
    assert_eq!(rt; first_parting(&none, &table), None);
}

#[test]
fn notches_go_through_every_layer(rt: HostRuntime) -> Result<(), Fail> {
    let heap = rt.alloc();
    let table: &[Notch] = &[4, 3, 0, 2].map(Notch::turned);
    has(&rt, &table, &[4, 3, 0, 2]);
    has(&rt, &Totals::over(heap, &table)?, &[4, 2, 2, 4]);
    has(
        &rt,
        &Totals::over(heap, &Excerpt::new(table, 1, 2))?,
        &[3, 3],
    );
    assert_eq!(rt; total(&table, 4), Ok(Notch::turned(4)));
    Ok(())
}

#[test]
fn a_million_totals(rt: HostRuntime) -> Result<(), Fail> {
    let ones = vec![in rt.alloc(); Steps::from(1); 1048576]?;
    let totals = Totals::over(rt.alloc(), &ones.as_slice())?;
    for place in 1..=1048576 {
        assert_eq!(rt; number_at(&totals, place), Ok(place * 2));
    }
    assert_eq!(rt; totals.count(), 1048576);
    Ok(())
}
