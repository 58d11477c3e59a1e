//! An entry that is counted.
use kinds::Steps;

/// A drive or an entry, and how often it occurs.
#[derive(Clone, Copy, PartialEq, Eq, Debug)]
pub struct Counted {
    /// The drive or entry.
    pub entry: Steps,
    /// How often it occurs.
    pub times: u32,
}
