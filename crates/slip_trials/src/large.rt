//! Sheets as large as they come.
use kinds::{Counts, Refusal};
use runs::Run;
use sheets::Sheet;
use std::alloc::Global;
use std::test::Fail;

// That of 1,048,580 cells the first holds `first`, the others of the sheet's own are zero, and the
// four past them are as they were.
fn is_cleared(table: &[Counts], first: u32) -> bool {
    let expected = |i| match i {
        0 => first,
        1..1048576 => 0,
        _ => 7,
    };
    table.len() == 1048580
        && table
            .iter()
            .enumerate()
            .all(|(i, cell)| u32::from(*cell) == expected(i))
}

// Enters 1, 2, 3 and so on to 1,048,576.
fn fill(sheet: &mut Sheet<Counts>) -> Result<(), Refusal> {
    for n in 1..=1048576 {
        sheet.enter(Counts::from(n))?;
    }
    Ok(())
}

#[test]
fn a_table_longer_than_a_sheet(rt: HostRuntime) -> Result<(), Fail> {
    let table = vec![in rt.alloc(); Counts::from(7); 1048580]?;
    let mut sheet = Sheet::make(1, table);
    assert!(rt; is_cleared(sheet.cells(), 0));
    assert!(rt; sheet.enter(Counts::from(5)).is_ok());
    assert!(rt; is_cleared(sheet.cells(), 5));
    Ok(())
}

#[test]
fn a_long_table_is_full_like_any(rt: HostRuntime) -> Result<(), Fail> {
    let table = vec![in rt.alloc(); Counts::from(7); 1048580]?;
    let mut sheet = Sheet::make(1, table);
    assert_eq!(rt; fill(&mut sheet), Ok(()));
    assert_eq!(rt; sheet.enter(Counts::from(1)), Err(Refusal::NoCells));
    assert_eq!(rt; sheet.count(), 1048576);
    let past = sheet
        .cells()
        .iter()
        .skip(1048576)
        .fold(0u32, |sum, cell| sum.wrapping_add(u32::from(*cell)));
    assert_eq!(rt; past, 28);
    Ok(())
}

#[test]
fn a_million_entries(rt: HostRuntime) -> Result<(), Fail> {
    let table = vec![in rt.alloc(); Counts::from(7); 1048576]?;
    let mut sheet = Sheet::make(2, table);
    assert_eq!(rt; fill(&mut sheet), Ok(()));
    let book = sheet.close();
    // the total of the first k is k(k + 1)/2, modulo 2^32
    for (k, total) in [
        (0, Ok(0)),
        (1, Ok(1)),
        (92681, Ok(4294930221)),
        (92682, Ok(55607)),
        (524288, Ok(262144)),
        (1048575, Ok(4294443008)),
        (1048576, Ok(524288)),
        (1048577, Err(Refusal::NoPlace)),
    ] {
        assert_eq!(rt; book.total(k).map(u32::from), total);
    }
    for k in [1, 2, 3, 65536, 524288, 777777, 1048575, 1048576] {
        assert_eq!(rt; book.at(k), Ok(Counts::from(k)));
    }
    assert_eq!(rt; runs::total(&book, 1048576), Ok(Counts::from(524288)));
    Ok(())
}
