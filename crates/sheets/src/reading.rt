//! Reading a sheet.
ghost use Rattle.runs.specs.Places.{entry_at, total_at};
ghost use Rattle.sheets.specs.History.{at as ask_at, count as ask_count, free as left_free, total_of, wanted as cells_wanted};
ghost use Rattle.sheets.specs.Sheets.{Follows, entries_of, entry_told, number_told, stands};
ghost use Rattle.std.specs.Prelude.{◌≡◌, is_some, Ok};

use crate::sheet::Sheet;
use kinds::{Kind, Reckoned, Refusal};

impl<K: Reckoned> Sheet<K> {
    /// The unit number.
    pub fn unit(&self) -> u32
        ensures { result ≡ self.now.unit }
    {
        self.unit
    }

    /// How many entries there are.
    pub fn count(&self) -> u32
        ensures counts { result ≡ self.now.cells.count }
        ensures follows_history { Follows K.Kind K.Reckoned.own ask_count self.now self.now (number_told (Ok result)) }
    {
        self.cells.count()
    }

    /// The whole table, the cells of the sheet first.
    pub fn cells(&self) -> &[K]
        ensures { result.now ≡ self.now.cells.table.items }
    {
        self.cells.table()
    }

    /// The entry at `place`, places counted from 1. Refused with 1 exactly when the place is 0 or
    /// above the count.
    pub fn at(&self, place: u32) -> Result<K, Refusal>
        ensures answers { result ≡ entry_at (entries_of K.Reckoned.own self.now) place }
        ensures follows_history { Follows K.Kind K.Reckoned.own (ask_at place) self.now self.now (entry_told result) }
    {
        self.cells.at(place)
    }

    /// The join of the first `i` entries, zero for none. Refused with 1 exactly when `i` is above
    /// the count.
    pub fn total(&self, i: u32) -> Result<K, Refusal>
        ensures answers { result ≡ total_at K.Reckoned.own (entries_of K.Reckoned.own self.now) i }
        ensures follows_history { Follows K.Kind K.Reckoned.own (total_of i) self.now self.now (entry_told result) }
    {
        self.cells.total(i)
    }

    // How many cells have no entry.
    pub(crate) fn free(&self) -> u32
        ensures { result ≡ left_free (stands self.now) }
    {
        self.cells.capacity() - self.cells.count()
    }

    // How many cells must be free for one more entry.
    pub(crate) fn wanted(&self) -> u32
        ensures { result ≡ cells_wanted (is_some self.now.parked) }
    {
        if self.parked.is_some() { 2 } else { 1 }
    }
}
