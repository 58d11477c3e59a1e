//! What `drift` and `season_drift` print of logs and books: the lines, and how often each entry
//! occurs.
#![tactic(auto)]

mod counted;
mod line;
mod parting;
mod tallying;
mod word;

pub use counted::Counted;
pub use line::{Agreement, LineRefused, Refused, Summary, TallyLine, TotalsGap};
pub use parting::{PartedAfter, PartingLine};
pub use tallying::{tally_of, tally_with};
pub use word::Word;
