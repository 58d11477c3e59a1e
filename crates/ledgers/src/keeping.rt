//! Keeping a ledger.
ghost use Rattle.std.specs.Prelude.{◌≡◌, ◌+◌, drop, vec_len, MatchResult, Some as Held, None as Nothing};
ghost use Rattle.cells.specs.Cells.{limit, own};
ghost use Rattle.ledgers.specs.Holding.{slip_kept};
ghost use Rattle.ledgers.specs.Unchanged.{Unchanged};
ghost use Rattle.sheets.specs.History.{begun, correct as ask_correct, enter as ask_enter, give_up, park as ask_park, refuses, restore as ask_restore, shift as ask_shift, strike as ask_strike};
ghost use Rattle.sheets.specs.Sheets.{Follows, Keeps, SameBook, entry_told, number_told, stands, without_slip};
ghost use Rattle.std.specs.Result.{result_err};

use crate::ledger::Ledger;
use kinds::{Kind, Reckoned, Refusal};
use sheets::{HandedBack, Sheet, Slip};

// Holds a slip where none is held.
fn hold(held: &mut Option<Slip>, slip: Slip)
    requires { held.old ≡ Nothing }
    ensures { held.new ≡ Held slip }
{
    *held = Some(slip);
}

// The answer of a sheet that was handed a slip, the slip being held again where it is handed back.
fn held_again(held: &mut Option<Slip>, told: Result<u32, HandedBack>) -> Result<u32, Refusal>
    requires { held.old ≡ Nothing }
    ensures answers { result ≡ without_slip told }
    ensures holds { MatchResult told (λ _. held.new ≡ Nothing) (λ back. held.new ≡ Held back.slip) }
{
    match told {
        Ok(count) => Ok(count),
        Err(HandedBack { slip, refusal }) => {
            hold(held, slip);
            Err(refusal)
        }
    }
}

impl<K: Reckoned> Ledger<K> {
    /// A ledger of a sheet of no entries, made of `table` as `Sheet::make` says.
    // by rule made of these two, as a sheet
    pub fn make(unit: u32, table: Vec<K>) -> Self
        ensures begins_history { Keeps K.Kind K.Reckoned.own (begun K.Reckoned.own unit (own (vec_len table))) result.sheet }
        ensures long { vec_len result.sheet.cells.table ≡ vec_len table }
        ensures beyond { drop limit result.sheet.cells.table.items ≡ drop limit table.items }
        ensures unit { result.sheet.unit ≡ unit }
    {
        Ledger {
            sheet: Sheet::make(unit, table),
            slip: None,
        }
    }

    /// The sheet, to read.
    pub fn sheet(&self) -> &Sheet<K>
        ensures { result.now ≡ self.now.sheet }
    {
        &self.sheet
    }

    // This call and the next three are the sheet's, with the promise that the slip stays.

    /// Adds an entry at the end and answers the new count. Refused as `Sheet::enter`.
    pub fn enter(&mut self, entry: K) -> Result<u32, Refusal>
        ensures refuses { result_err result ≡ refuses (stands self.old.sheet) (ask_enter entry) }
        ensures stays { SameBook K.Reckoned.own self.old.sheet self.new.sheet }
        ensures unchanged { Unchanged result self.old self.new }
        ensures follows_history { Follows K.Kind K.Reckoned.own (ask_enter entry) self.old.sheet self.new.sheet (number_told result) }
    {
        self.sheet.enter(entry)
    }

    /// Puts `entry` at `place` and answers the entry that stood there. Refused as `Sheet::correct`.
    pub fn correct(&mut self, place: u32, entry: K) -> Result<K, Refusal>
        ensures refuses { result_err result ≡ refuses (stands self.old.sheet) (ask_correct place entry) }
        ensures stays { SameBook K.Reckoned.own self.old.sheet self.new.sheet }
        ensures unchanged { Unchanged result self.old self.new }
        ensures follows_history { Follows K.Kind K.Reckoned.own (ask_correct place entry) self.old.sheet self.new.sheet (entry_told result) }
    {
        self.sheet.correct(place, entry)
    }

    /// Joins `amount` to the entry at `place` and answers the new entry. Refused as `Sheet::shift`.
    pub fn shift(&mut self, place: u32, amount: K) -> Result<K, Refusal>
        ensures refuses { result_err result ≡ refuses (stands self.old.sheet) (ask_shift place amount) }
        ensures stays { SameBook K.Reckoned.own self.old.sheet self.new.sheet }
        ensures unchanged { Unchanged result self.old self.new }
        ensures follows_history { Follows K.Kind K.Reckoned.own (ask_shift place amount) self.old.sheet self.new.sheet (entry_told result) }
    {
        self.sheet.shift(place, amount)
    }

    /// Removes the last entry and answers it. Refused as `Sheet::strike`.
    pub fn strike(&mut self) -> Result<K, Refusal>
        ensures refuses { result_err result ≡ refuses {K = K} (stands self.old.sheet) ask_strike }
        ensures stays { SameBook K.Reckoned.own self.old.sheet self.new.sheet }
        ensures unchanged { Unchanged result self.old self.new }
        ensures follows_history { Follows K.Kind K.Reckoned.own ask_strike self.old.sheet self.new.sheet (entry_told result) }
    {
        self.sheet.strike()
    }

    /// Parks the sheet, keeps its slip and answers the new count. Refused as `Sheet::park`.
    pub fn park(&mut self) -> Result<u32, Refusal>
        ensures refuses { result_err result ≡ refuses {K = K} (stands self.old.sheet) ask_park }
        ensures stays { SameBook K.Reckoned.own self.old.sheet self.new.sheet }
        ensures answers { MatchResult result (λ n. n ≡ self.new.sheet.cells.count) (λ _. (self.new.sheet ≡ self.old.sheet) × (self.new.slip ≡ self.old.slip)) }
        ensures follows_history { Follows K.Kind K.Reckoned.own ask_park self.old.sheet self.new.sheet (slip_kept self.old.sheet.unit result) }
    {
        let slip = self.sheet.park()?;
        hold(&mut self.slip, slip);
        Ok(self.sheet.count())
    }

    /// Restores by the slip that is held and answers the new count. Refused with 5 exactly when no
    /// slip is held.
    pub fn restore(&mut self) -> Result<u32, Refusal>
        ensures refuses { result_err result ≡ refuses {K = K} (stands self.old.sheet) (ask_restore self.old.sheet.unit) }
        ensures stays { SameBook K.Reckoned.own self.old.sheet self.new.sheet }
        ensures answers { MatchResult result (λ n. n ≡ self.old.sheet.cells.count + 1) (λ _. (self.new.sheet ≡ self.old.sheet) × (self.new.slip ≡ self.old.slip)) }
        ensures follows_history { Follows K.Kind K.Reckoned.own (ask_restore self.old.sheet.unit) self.old.sheet self.new.sheet (number_told result) }
    {
        let slip = self.slip.take().ok_or(Refusal::WrongSlip)?;
        let told = self.sheet.restore(slip);
        held_again(&mut self.slip, told)
    }

    /// Gives up the slip that is held and answers the count. Refused with 5 exactly when no slip is
    /// held.
    pub fn give_up(&mut self) -> Result<u32, Refusal>
        ensures refuses { result_err result ≡ refuses {K = K} (stands self.old.sheet) (give_up self.old.sheet.unit) }
        ensures stays { SameBook K.Reckoned.own self.old.sheet self.new.sheet }
        ensures answers { MatchResult result (λ n. n ≡ self.old.sheet.cells.count) (λ _. (self.new.sheet ≡ self.old.sheet) × (self.new.slip ≡ self.old.slip)) }
        ensures ended { self.new.sheet.parked ≡ Nothing }
        ensures unaltered { self.new.sheet.cells ≡ self.old.sheet.cells }
        ensures follows_history { Follows K.Kind K.Reckoned.own (give_up self.old.sheet.unit) self.old.sheet self.new.sheet (number_told result) }
    {
        let slip = self.slip.take().ok_or(Refusal::WrongSlip)?;
        let told = self.sheet.give_up(slip);
        held_again(&mut self.slip, told)
    }
}
