//! Runs of entries: any list of entries of one kind that can be counted and read at a place.
#![tactic(auto)]

mod excerpt;
mod iter;
mod lent;
mod meaning;
mod parting;
mod place;
mod reading;
mod table;
mod totals;
mod walk;

pub use excerpt::Excerpt;
pub use iter::Iter;
pub use meaning::Run;
pub use parting::{Parting, steps_apart};
pub use place::Place;
pub use reading::numbers_of;
pub use totals::Totals;
pub use walk::{first_parting, position, total};
