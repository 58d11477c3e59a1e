//! Making a tree of a table.
ghost use Rattle.cells.specs.Cells.{Clean, limit};
ghost use Rattle.std.specs.Prelude.{◌≡◌, drop, vec_len};

use crate::table::Cells;
use crate::walk::clear;
use kinds::Reckoned;

impl<K: Reckoned> Cells<K> {
    /// A tree of no entries. Its cells are the whole table, or its first 1,048,576 if it is longer,
    /// all set to zero; what lies past them is as it was.
    pub fn over(table: Vec<K>) -> Self
        ensures empty { result.count ≡ 0 }
        ensures long { vec_len result.table ≡ vec_len table }
        ensures cleared { Clean K.Reckoned.own result }
        ensures beyond { drop limit result.table.items ≡ drop limit table.items }
    {
        let mut table = table;
        let own = table.len().min(1_048_576);
        clear(table.as_mut_slice(), own);
        Cells { table, count: 0 }
    }
}
