//! Numbers packed into 32-bit words.
#![tactic(auto)]

mod chunks;
mod rank;
#[cfg(test)]
mod tests;
mod width;
mod words;

pub use chunks::{read_chunk, write_chunk};
pub use rank::ones_before;
pub use width::Width;
