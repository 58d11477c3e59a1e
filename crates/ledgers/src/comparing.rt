//! Whether two sheets have the same entries.
ghost use Rattle.std.specs.Prelude.{◌≡◌, ℕ, ◌<◌, ◌≤◌, length, MatchBool, ◌≢◌, slice_index_or};
ghost use Rattle.sheets.specs.History.{History};
ghost use Rattle.sheets.specs.Sheets.{Keeps, entries_of};

use kinds::{Kind, Reckoned};
use sheets::ClosedSheet;

// Whether as many cells are equal. Their numbers are compared: by the laws these alone tell entries apart.
fn same_cells<K: Reckoned>(cells: &[K], others: &[K]) -> bool
    requires { length cells.now ≡ length others.now }
    ensures { MatchBool result ((k : ℕ) → k < length cells.now → slice_index_or cells.now k K.zero ≡ slice_index_or others.now k K.zero) ((k : ℕ) × (k < length cells.now) × (slice_index_or cells.now k K.zero ≢ slice_index_or others.now k K.zero)) }
{
    for (cell, other) in cells.iter().zip(others) {
        if cell.number() != other.number() {
            return false;
        }
    }
    true
}

/// Whether two sheets have equal entries, told by their counts and their cells alone, since equal
/// entries mean equal cells.
pub fn agrees<K: Reckoned>(a: &ClosedSheet<K>, b: &ClosedSheet<K>) -> bool
    ensures entries { MatchBool result (entries_of K.Reckoned.own a.now.sheet ≡ entries_of K.Reckoned.own b.now.sheet) (entries_of K.Reckoned.own a.now.sheet ≢ entries_of K.Reckoned.own b.now.sheet) }
    ensures histories { (g h : History K) → Keeps K.Kind K.Reckoned.own g a.now.sheet → Keeps K.Kind K.Reckoned.own h b.now.sheet → MatchBool result (g.entries ≡ h.entries) (g.entries ≢ h.entries) }
{
    let count = a.count() as usize;
    if count != b.count() as usize {
        return false;
    }
    same_cells(&a.cells()[..count], &b.cells()[..count])
}
