//! Logs: each line says one thing, such as a drive.
#![tactic(auto)]

mod drive;
mod fault;
mod line;
mod lines;
mod reading;

pub use fault::BadLine;
pub use line::Line;
pub use reading::read_log;
