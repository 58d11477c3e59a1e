//! A sheet when the season has ended.
ghost use Rattle.runs.specs.Places.{entry_at, total_at};
ghost use Rattle.sheets.specs.Few.{entries_few};
ghost use Rattle.sheets.specs.History.{History, at as ask_at, count as ask_count, give_up, refuses, total_of};
ghost use Rattle.sheets.specs.Sheets.{Follows, GivenUp, Keeps, SameBook, entries_of, entry_told, number_told, stands, without_slip};
ghost use Rattle.std.specs.Prelude.{◌≡◌, Ok, MatchResult};
ghost use Rattle.std.specs.Result.{result_err};

use crate::sheet::Sheet;
use crate::slip::{HandedBack, Slip};
use kinds::{Kind, Reckoned, Refusal};
use runs::Run;

/// A sheet that takes no more entries. It is read, its slip can be given up, and it is a run of its
/// entries.
#[derive(Drop)]
pub struct ClosedSheet<K> {
    sheet: Sheet<K>,
}

impl<K: Reckoned> Sheet<K> {
    /// The sheet closed, with the same entries and parking. It keeps its history, whose entries are
    /// those of the run that it is.
    pub fn close(self) -> ClosedSheet<K>
        ensures unaltered { result.sheet ≡ self }
        ensures keeps_history { (h : History K) → Keeps K.Kind K.Reckoned.own h self → Keeps K.Kind K.Reckoned.own h result.sheet × (entries_of K.Reckoned.own result.sheet ≡ h.entries) }
    {
        ClosedSheet { sheet: self }
    }
}

// Each call is the open sheet's: a state in the type would stand in all its promises too.
impl<K: Reckoned> ClosedSheet<K> {
    /// How many entries there are.
    pub fn count(&self) -> u32
        ensures counts { result ≡ self.now.sheet.cells.count }
        ensures follows_history { Follows K.Kind K.Reckoned.own ask_count self.now.sheet self.now.sheet (number_told (Ok result)) }
    {
        self.sheet.count()
    }

    /// The whole table, the cells of the sheet first.
    pub fn cells(&self) -> &[K]
        ensures { result.now ≡ self.now.sheet.cells.table.items }
    {
        self.sheet.cells()
    }

    /// The entry at `place`, places counted from 1. Refused with 1 exactly when the place is 0 or
    /// above the count.
    pub fn at(&self, place: u32) -> Result<K, Refusal>
        ensures answers { result ≡ entry_at (entries_of K.Reckoned.own self.now.sheet) place }
        ensures follows_history { Follows K.Kind K.Reckoned.own (ask_at place) self.now.sheet self.now.sheet (entry_told result) }
    {
        self.sheet.at(place)
    }

    /// The join of the first `i` entries, zero for none. Refused with 1 exactly when `i` is above
    /// the count.
    pub fn total(&self, i: u32) -> Result<K, Refusal>
        ensures answers { result ≡ total_at K.Reckoned.own (entries_of K.Reckoned.own self.now.sheet) i }
        ensures follows_history { Follows K.Kind K.Reckoned.own (total_of i) self.now.sheet self.now.sheet (entry_told result) }
    {
        self.sheet.total(i)
    }

    /// Takes the slip, ends the parking, enters nothing and answers the count. Refused with 5
    /// exactly when nothing is parked or the unit number is not the slip's; the slip is then handed
    /// back.
    pub fn give_up(&mut self, slip: Slip) -> Result<u32, HandedBack>
        ensures refuses { result_err (without_slip result) ≡ refuses {K = K} (stands self.old.sheet) (give_up slip.unit) }
        ensures stays { SameBook K.Reckoned.own self.old.sheet self.new.sheet }
        ensures leaves { MatchResult result (GivenUp K.Kind K.Reckoned.own self.old.sheet self.new.sheet) (λ back. (back.slip ≡ slip) × (self.new.sheet ≡ self.old.sheet)) }
        ensures follows_history { Follows K.Kind K.Reckoned.own (give_up slip.unit) self.old.sheet self.new.sheet (number_told (without_slip result)) }
    {
        self.sheet.give_up(slip)
    }
}

/// A closed sheet is the run of its entries.
impl<K: Reckoned> Run for ClosedSheet<K> {
    type Entry = K;

    ghost entries = { λ s. entries_of K.Reckoned.own s.sheet };

    ghost few = { λ s. entries_few K.Reckoned.own s.sheet };

    fn count(&self) -> u32 {
        ClosedSheet::count(self)
    }

    fn at(&self, place: u32) -> Result<K, Refusal> {
        ClosedSheet::at(self, place)
    }
}
