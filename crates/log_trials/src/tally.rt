//! A tally in the order of its entries.
use kinds::{Refusal, Steps};
use reports::{Counted, tally_of, tally_with};
use std::test::Fail;
use tallies::TallyRecord;

// So many drives of so many steps.
fn counted(entry: i32, times: u32) -> Counted {
    Counted {
        entry: Steps::from(entry),
        times,
    }
}

#[test]
fn a_tally_rises(rt: HostRuntime) -> Result<(), Fail> {
    let drives = [5, -3, 5, 0, -2147483648, 5].map(Steps::from);
    let tally = tally_of(rt.alloc(), &drives.as_slice())?;
    let want = [
        counted(-2147483648, 1),
        counted(-3, 1),
        counted(0, 1),
        counted(5, 3),
    ];
    assert!(rt; tally.as_slice() == want.as_slice());
    assert!(rt; tally_of(rt.alloc(), &&drives[..0])?.is_empty());
    Ok(())
}

#[test]
fn a_tally_is_made_in_a_table_that_is_long_enough(rt: HostRuntime) -> Result<(), Fail> {
    let drives = [5, -3, 5].map(Steps::from);
    let other = TallyRecord {
        number: 9,
        times: 9,
    };
    let table = vec![in rt.alloc(); other; 2]?;
    let tally = tally_with(rt.alloc(), &drives.as_slice(), table)?;
    let want = [counted(-3, 1), counted(5, 2)];
    assert!(rt; tally.as_slice() == want.as_slice());
    let short = vec![in rt.alloc(); other; 1]?;
    let refused = tally_with(rt.alloc(), &drives.as_slice(), short);
    assert_eq!(rt; refused.err(), Some(Refusal::NoRoom));
    Ok(())
}
