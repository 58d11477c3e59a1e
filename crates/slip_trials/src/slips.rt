//! Slips brought to the sheet that they are for, and to others.
ghost use Rattle.std.specs.Prelude.{◌≡◌, true, is_some, ◌≢◌};

use kinds::{Refusal, Steps};
use sheets::{HandedBack, Sheet, Slip};
use std::test::Fail;

// Ends a slip at the sheet that it is for, and answers the count.
fn ended(sheet: &mut Sheet<Steps>, slip: Slip) -> u32
    requires parked { is_some sheet.old.parked ≡ true }
    requires unit { slip.unit ≡ sheet.old.unit }
{
    sheet.give_up(slip).unwrap()
}

// Parks a sheet, brings its slip to one where nothing is parked, and then home. Answers the refusal,
// the unit number on the slip that was handed back, and the count at home at last.
fn strayed(home: &mut Sheet<Steps>, away: &mut Sheet<Steps>) -> Option<(Refusal, u32, u32)> {
    let slip = home.park().ok()?;
    match away.restore(slip) {
        Ok(_) => None,
        Err(HandedBack { slip, refusal }) => {
            let unit = slip.unit();
            Some((refusal, unit, ended(home, slip)))
        }
    }
}

// Brings a slip to a sheet of another unit, which hands it back.
fn turned_away(sheet: &mut Sheet<Steps>, slip: Slip) -> HandedBack
    requires { slip.unit ≢ sheet.old.unit }
    ensures back { result.slip ≡ slip }
    ensures unaltered { sheet.new ≡ sheet.old }
{
    sheet.restore(slip).unwrap_err()
}

// Parks two sheets, brings the slip of the first to the second, and then each slip home. Answers the
// refusal, the unit number on the slip that was handed back, and both counts at last.
fn crossed(home: &mut Sheet<Steps>, away: &mut Sheet<Steps>) -> Option<(Refusal, u32, u32, u32)> {
    // not `ok()?`, with which the proof did not close
    let Ok(slip) = home.park() else {
        return None;
    };
    if slip.unit() == away.unit() {
        ended(home, slip);
        return None;
    }
    let Ok(other) = away.park() else {
        ended(home, slip);
        return None;
    };
    let HandedBack { slip, refusal } = turned_away(away, slip);
    let unit = slip.unit();
    let count = ended(home, slip);
    Some((refusal, unit, count, ended(away, other)))
}

// Parks a sheet, closes it and gives its slip up. Answers the count.
fn closed_while_parked(mut sheet: Sheet<Steps>) -> Result<u32, Refusal> {
    let slip = sheet.park()?;
    let mut book = sheet.close();
    Ok(book.give_up(slip).unwrap())
}

#[test]
fn a_slip_strays_and_comes_home(rt: HostRuntime) -> Result<(), Fail> {
    let mut home = Sheet::make(7, vec![in rt.alloc(); Steps::from(9); 4]?);
    let mut away = Sheet::make(8, vec![in rt.alloc(); Steps::from(9); 4]?);
    let told = strayed(&mut home, &mut away);
    assert_eq!(rt; told, Some((Refusal::WrongSlip, 7, 1)));
    Ok(())
}

#[test]
fn slips_of_two_parked_sheets_are_told_apart(rt: HostRuntime) -> Result<(), Fail> {
    let mut home = Sheet::make(7, vec![in rt.alloc(); Steps::from(9); 2]?);
    let mut away = Sheet::make(8, vec![in rt.alloc(); Steps::from(9); 4]?);
    assert!(rt; away.enter(Steps::from(3)).is_ok());
    let told = crossed(&mut home, &mut away);
    assert_eq!(rt; told, Some((Refusal::WrongSlip, 7, 1, 2)));
    Ok(())
}

#[test]
fn a_closed_sheet_keeps_its_parking(rt: HostRuntime) -> Result<(), Fail> {
    let mut sheet = Sheet::make(7, vec![in rt.alloc(); Steps::from(9); 4]?);
    assert!(rt; sheet.enter(Steps::from(12)).is_ok());
    assert_eq!(rt; closed_while_parked(sheet), Ok(2));
    Ok(())
}
