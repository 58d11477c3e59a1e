//! Making a sheet.
ghost use Rattle.cells.specs.Cells.{limit, own};
ghost use Rattle.sheets.specs.History.{begun};
ghost use Rattle.sheets.specs.Sheets.{Keeps};
ghost use Rattle.std.specs.Prelude.{◌≡◌, drop, vec_len};

use crate::sheet::Sheet;
use cells::Cells;
use kinds::{Kind, Reckoned};

impl<K: Reckoned> Sheet<K> {
    /// A sheet of no entries. Its cells are the whole table, or its first 1,048,576 if it is longer,
    /// all set to zero; what lies past them is as it was.
    // by rule a sheet is made of these two
    pub fn make(unit: u32, table: Vec<K>) -> Self
        ensures begins_history { Keeps K.Kind K.Reckoned.own (begun K.Reckoned.own unit (own (vec_len table))) result }
        ensures long { vec_len result.cells.table ≡ vec_len table }
        ensures beyond { drop limit result.cells.table.items ≡ drop limit table.items }
    {
        Sheet {
            unit,
            cells: Cells::over(table),
            parked: None,
        }
    }
}
