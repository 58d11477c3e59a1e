//! Reading a tree.
ghost use Rattle.std.specs.Prelude.{◌≡◌, ◌<◌, ◌≤◌, Ok, vec_len};
ghost use Rattle.cells.specs.Cells.{own, written};
ghost use Rattle.kinds.specs.Totals.{total};
ghost use Rattle.runs.specs.Places.{entry_at, total_at};

use crate::table::Cells;
use crate::walk::{cell_of, joined, others};
use kinds::{Reckoned, Refusal};
use runs::Place;

impl<K: Reckoned> Cells<K> {
    /// How many entries there are.
    pub fn count(&self) -> u32
        ensures { result ≡ self.now.count }
    {
        self.count
    }

    /// How many entries there can be: the length of the table, at most 1,048,576.
    pub fn capacity(&self) -> u32
        ensures { result ≡ own (vec_len self.now.table) }
    {
        self.table.len().min(1_048_576) as u32
    }

    /// The whole table, the cells of the tree first.
    pub fn table(&self) -> &[K]
        ensures { result.now ≡ self.now.table.items }
    {
        self.table.as_slice()
    }

    /// The entry at `place`, places counted from 1. Refused with 1 exactly when the place is 0 or
    /// above the count. Reads as many cells as two divides the place, and one.
    pub fn at(&self, place: u32) -> Result<K, Refusal>
        ensures { result ≡ entry_at (written K.Reckoned.own self.now) place }
    {
        let place = Place::among(place, self.count)?;
        Ok(self.entry(place))
    }

    // The entry at a place that there is.
    pub(crate) fn entry(&self, place: Place) -> K
        requires { place.number ≤ self.now.count }
        ensures { entry_at (written K.Reckoned.own self.now) place.number ≡ Ok result }
    {
        let cells = self.table.as_slice();
        cell_of(cells, place).join(others(cells, place).inverse())
    }

    /// The join of the first `i` entries, zero for none. Refused with 1 exactly when `i` is above
    /// the count. Reads as many cells as `i` has ones in binary.
    pub fn total(&self, i: u32) -> Result<K, Refusal>
        ensures { result ≡ total_at K.Reckoned.own (written K.Reckoned.own self.now) i }
    {
        if i > self.count {
            return Err(Refusal::NoPlace);
        }
        Ok(joined(&self.table[..i as usize]))
    }

    /// The join of all entries.
    pub fn sum(&self) -> K
        ensures { result ≡ total K.Reckoned.own (written K.Reckoned.own self.now) }
    {
        joined(&self.table[..self.count as usize])
    }
}
