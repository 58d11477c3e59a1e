//! Open sheets read as runs.
use kinds::{Refusal, Steps};
use runs::Run;
use sheets::Sheet;
use std::process::Abort;
use std::test::Fail;

// That an open sheet is a run of so many entries, of this total and this last entry, with none past
// either end.
fn reads(
    rt: &impl Abort,
    sheet: &Sheet<Steps>,
    count: u32,
    total: i32,
    last: Result<Steps, Refusal>,
) {
    let run = sheet.entries();
    assert_eq!(rt; run.count(), count);
    assert_eq!(rt; runs::total(&run, count), Ok(Steps::from(total)));
    assert_eq!(rt; run.at(count), last);
    for place in [0, count.saturating_add(1)] {
        assert_eq!(rt; run.at(place), Err(Refusal::NoPlace));
    }
}

#[test]
fn an_open_sheet_is_a_run(rt: HostRuntime) -> Result<(), Fail> {
    let table = vec![in rt.alloc(); Steps::from(9); 4]?;
    let mut sheet = Sheet::make(3, table);
    reads(&rt, &sheet, 0, 0, Err(Refusal::NoPlace));
    for (entry, count, total) in [(5, 1, 5), (-6, 2, -1), (70, 3, 69), (1, 4, 70), (8, 4, 70)] {
        let entered = sheet.enter(Steps::from(entry)).is_ok();
        let last = if entered { entry } else { 1 };
        reads(&rt, &sheet, count, total, Ok(Steps::from(last)));
    }
    Ok(())
}
