//! Ledgers: sheets with their slips, any list of calls on them, and the law that they follow their history.
#![tactic(auto)]

mod call;
mod calling;
mod comparing;
mod keeping;
mod ledger;
mod replaying;

pub use call::Call;
pub use comparing::agrees;
pub use ledger::Ledger;
pub use replaying::{Replayed, Unplayed, replay};
