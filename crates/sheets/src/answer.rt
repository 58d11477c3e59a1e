//! What a call on a sheet answers.

/// The answer of any call on a sheet that is carried out, as a history tells it.
#[derive(Clone, Copy, PartialEq, Eq, Debug)]
pub enum Answer<K> {
    /// A number of entries.
    Number(u32),
    /// An entry or an amount.
    Entry(K),
    /// A slip that bears this unit number.
    Slip(u32),
}
