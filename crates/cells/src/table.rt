//! The table that a Fenwick tree is kept in.
ghost use Rattle.std.specs.Prelude.{◌≤◌, min, vec_len};

/// Entries of a reckoned kind in a binary Fenwick tree: entries are added and removed at the end,
/// any is read or altered and the first i are joined in time logarithmic in their number.
///
/// The cell of place j joins the entries from j − l + 1 to j, where l is the largest power of two
/// that divides j. Cells past the last entry hold zero. A table has at most 1,048,576 cells of its
/// own; what lies past them is left as it was.
// a table and a count, and no `Vec` of the cells in use: by rule all of the table is the caller's
#[derive(Drop)]
pub struct Cells<K> {
    pub(crate) table: Vec<K>,
    pub(crate) count: u32,
    ghost within: { count ≤ min (vec_len table) 1_048_576 },
}
