//! The tally of a run: how often each number occurs in it.
#![tactic(auto)]

mod records;
mod tallying;

pub use records::TallyRecord;
pub use tallying::{blank_records, tally, tally_records, tally_within};
