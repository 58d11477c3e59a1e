//! Logs of seasons: a drive, `park` or `restore` a line.
#![tactic(auto)]

mod line;

pub use line::LogLine;
