//! The records of a tally.

/// A number, and how often it occurs.
#[derive(Clone, Copy, PartialEq, Eq, Debug)]
pub struct TallyRecord {
    /// The number of an entry.
    pub number: u32,
    /// How many entries of the run have that number.
    pub times: u32,
}
