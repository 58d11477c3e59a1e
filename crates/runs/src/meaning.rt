//! What a run is.
ghost use Rattle.std.specs.Prelude.{◌≡◌, ◌^◌, ◌<◌, List, length};
ghost use Rattle.runs.specs.Places.{entry_at};

use kinds::{Kind, Refusal};

/// A list of at most 4,294,967,295 entries of one kind. Reading changes nothing, so the same
/// question has the same answer whenever it is put.
pub trait Run {
    /// What an entry of the run is.
    type Entry: Kind;

    // the entries, in their order
    ghost entries: { Self → List Self.Entry };

    // that there are at most 4,294,967,295, which each `impl` must prove
    ghost few: { (run : Self) → length (entries run) < 2 ^ 32 };

    /// How many entries there are.
    fn count(&self) -> u32
        ensures { result ≡ length (entries self.now) };

    /// The entry at `place`, places counted from 1. Refused with 1 exactly when the place is 0 or
    /// above the count.
    fn at(&self, place: u32) -> Result<Self::Entry, Refusal>
        ensures { result ≡ entry_at (entries self.now) place };
}
