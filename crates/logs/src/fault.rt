//! What is wrong with a log.
use kinds::Refusal;

/// The first line of a log that was turned down, counted from 1, and why.
#[derive(Clone, Copy, PartialEq, Eq, Debug)]
pub struct BadLine {
    /// Which line.
    pub line: u64,
    /// 6 where the line says nothing, 24 where there was no memory for it.
    pub refusal: Refusal,
}
