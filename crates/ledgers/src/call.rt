//! What can be asked of a ledger.

/// A call on a sheet whose slips a ledger keeps.
#[derive(Clone, Copy)]
pub enum Call<K> {
    /// Add an entry at the end.
    Enter(K),
    /// Put an entry at a place.
    Correct(u32, K),
    /// Join an amount to the entry at a place.
    Shift(u32, K),
    /// Remove the last entry.
    Strike,
    /// Park the sheet and keep its slip.
    Park,
    /// Restore by the slip that is held.
    Restore,
    /// Give up the slip that is held.
    GiveUp,
    /// Read the entry at a place.
    At(u32),
    /// Read the total of the first so many entries.
    Total(u32),
    /// Read how many entries there are.
    Count,
}
