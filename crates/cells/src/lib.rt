//! A binary Fenwick tree over the entries of any reckoned kind.
#![tactic(auto)]

mod altering;
mod making;
mod reading;
mod span;
mod table;
mod walk;

pub use table::Cells;
