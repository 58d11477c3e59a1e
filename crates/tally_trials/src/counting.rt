//! Tallies of several kinds.
use kinds::{Counts, Faults, Flags, Refusal, Steps};
use runs::{Excerpt, Run};
use std::alloc::Global;
use std::process::Abort;
use std::test::Fail;
use tallies::{TallyRecord, blank_records, tally, tally_records, tally_within};
use trials::Notch;

const BLANK: TallyRecord = TallyRecord {
    number: 7777,
    times: 7777,
};

// That a table has just the records expected, in whatever order.
fn has_just(rt: &impl Abort, records: &[TallyRecord], expected: &[(u32, u32)]) {
    assert_eq!(rt; records.len(), expected.len());
    for &(number, times) in expected {
        let record = TallyRecord { number, times };
        assert_eq!(rt; records.iter().filter(|r| **r == record).count(), 1);
    }
}

// That the tally of a run has just these records, and leaves the others of a table alone; and that
// it writes none into a table that is one too short.
fn tallies<R: Run>(
    rt: &impl Abort,
    heap: Global,
    run: &R,
    expected: &[(u32, u32)],
) -> Result<(), Fail> {
    has_just(rt, tally_records(heap, run)?.as_slice(), expected);
    let mut records = [BLANK; 8];
    let n = tally(heap, run, &mut records)? as usize;
    assert_eq!(rt; n, expected.len());
    has_just(rt, &records[..n], expected);
    assert!(rt; records.iter().skip(n).all(|r| *r == BLANK));
    let mut short = [BLANK; 8];
    if n > 0 && n < 8 {
        let refused = tally(heap, run, &mut short[0..n - 1]);
        assert_eq!(rt; refused, Err(Refusal::NoRoom));
    }
    assert_eq!(rt; short, [BLANK; 8]);
    Ok(())
}

#[test]
fn tallies_of_steps_flags_and_faults(rt: HostRuntime) -> Result<(), Fail> {
    let heap = rt.alloc();
    let steps: &[Steps] = &[
        Steps::from(4),
        Steps::from(-4),
        Steps::from(4),
        Steps::from(0),
        Steps::from(4),
    ];
    tallies(&rt, heap, &steps, &[(8, 3), (7, 1), (0, 1)])?;
    tallies(&rt, heap, &Excerpt::new(steps, 1, 2), &[(8, 1), (7, 1)])?;
    let flags: &[Flags] = &[Flags::from(255), Flags::from(0), Flags::from(255)];
    tallies(&rt, heap, &flags, &[(255, 2), (0, 1)])?;
    let ten = Faults::try_from(10)?;
    let nine = Faults::try_from(9)?;
    let faults: &[Faults] = &[ten, nine, ten, ten];
    tallies(&rt, heap, &faults, &[(10, 3), (9, 1)])?;
    let notches: &[Notch] = &[Notch::turned(3), Notch::turned(8), Notch::turned(1)];
    tallies(&rt, heap, &notches, &[(3, 2), (1, 1)])?;
    let none: &[Counts] = &[];
    tallies(&rt, heap, &none, &[])
}

#[test]
fn a_table_is_cut_to_its_tally(rt: HostRuntime) -> Result<(), Fail> {
    let heap = rt.alloc();
    let entries = [7, 3, 7].map(Counts::from);
    let table = blank_records(heap, &entries.as_slice())?;
    assert_eq!(rt; table.len(), 3);
    let tally = tally_within(heap, &entries.as_slice(), table)?;
    has_just(&rt, tally.as_slice(), &[(7, 2), (3, 1)]);
    let short = vec![in heap; BLANK; 1]?;
    let refused = tally_within(heap, &entries.as_slice(), short);
    assert_eq!(rt; refused.err(), Some(Refusal::NoRoom));
    Ok(())
}

#[test]
fn a_million_different_numbers(rt: HostRuntime) -> Result<(), Fail> {
    let heap = rt.alloc();
    let entries: Vec<Counts> = (0..1048576u32)
        .map(|i| Counts::from(i.wrapping_mul(2654435761)))
        .collect(heap)?;
    let mut records = vec![in heap; BLANK; 1048576]?;
    let n = tally(heap, &entries.as_slice(), records.as_mut_slice())?;
    assert_eq!(rt; n, 1048576);
    assert!(rt; records.iter().all(|r| r.times == 1));
    let short = &mut records.as_mut_slice()[0..1048575];
    assert_eq!(rt;
        tally(heap, &entries.as_slice(), short),
        Err(Refusal::NoRoom)
    );
    Ok(())
}
