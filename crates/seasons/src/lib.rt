//! Seasons: logs replayed as books of steps.
#![tactic(auto)]

mod replaying;

pub use replaying::{calls_of, replay_log};
pub use runs::steps_apart;
