//! The sheet as it is kept.
ghost use Rattle.std.specs.Prelude.{◌+◌, ◌≤◌, min, vec_len};
ghost use Rattle.sheets.specs.Room.{kept};

use cells::Cells;

/// The book of a valve while the season runs: entries of a reckoned kind, to which entries are
/// added at the end, and of which any can be corrected.
///
/// A sheet may be parked: it is then brought to a total of zero, keeps the amount by its number, and
/// keeps one cell free for restoring it.
#[derive(Drop)]
pub struct Sheet<K> {
    pub(crate) unit: u32,
    pub(crate) cells: Cells<K>,
    pub(crate) parked: Option<u32>,
    ghost room: { cells.count + kept parked ≤ min (vec_len cells.table) 1_048_576 },
}
