//! Kinds of entry: what the entries of a book are, how each is numbered and how entries join; and
//! the numbered refusals of the whole product.
#![tactic(auto)]

mod codes;
mod counts;
mod faults;
mod flags;
mod laws;
mod memory;
mod refusal;
mod shown;
mod steps;

pub use counts::Counts;
pub use faults::Faults;
pub use flags::Flags;
pub use laws::{Kind, Reckoned};
pub use refusal::Refusal;
pub use steps::Steps;
