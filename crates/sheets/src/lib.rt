//! Sheets: the books of valves while the season runs, and the histories that they keep.
#![tactic(auto)]

mod altering;
mod answer;
mod closed;
mod making;
mod parking;
mod reading;
mod sheet;
mod slip;
mod view;

pub use answer::Answer;
pub use closed::ClosedSheet;
pub use sheet::Sheet;
pub use slip::{HandedBack, Slip};
pub use view::Entries;
