//! A whole season: any list of calls on one sheet.
ghost use Rattle.kinds.specs.Refusals.{refusal as numbered};
ghost use Rattle.kinds.specs.Totals.{total as joined};
ghost use Rattle.ledgers.specs.Law.{Law};
ghost use Rattle.sheets.specs.Sheets.{entries_of};
ghost use Rattle.std.specs.Prelude.{◌≡◌, MatchResult};

use crate::call::Call;
use crate::ledger::Ledger;
use kinds::{Kind, Reckoned, Refusal};
use sheets::{Answer, ClosedSheet};
use std::alloc::Global;

/// A season replayed.
#[derive(Drop)]
pub struct Replayed<K> {
    /// The sheet, closed.
    pub book: ClosedSheet<K>,
    /// The total of all its entries, read from its cells.
    pub total: K,
    /// What each call answered.
    pub answers: Vec<Result<Answer<K>, Refusal>>,
}

/// A season that was not replayed: the table as it was, and why.
#[derive(Drop)]
pub struct Unplayed<K> {
    /// The table, as it was handed over.
    pub table: Vec<K>,
    /// The refusal.
    pub refusal: Refusal,
}

// The total of all entries of a closed sheet.
fn total_of<K: Reckoned>(book: &ClosedSheet<K>) -> K
    ensures { result ≡ joined K.Reckoned.own (entries_of K.Reckoned.own book.now.sheet) }
{
    book.total(book.count()).unwrap()
}

/// Makes a sheet of `table`, carries out or turns down every call in its order, restoring and giving
/// up by the slip then held, closes the sheet, giving up a slip still held, and reads the total of
/// all entries from its cells.
///
/// Whatever the calls are, the total is what the history of the calls says, every answer is the
/// history's, and every cell holds what its place asks for. Refused with 24, and only for want of
/// memory for the answers, before anything is done.
// by rule a sheet is made of a unit number and a table
pub fn replay<K: Reckoned>(
    heap: Global,
    unit: u32,
    table: Vec<K>,
    calls: &[Call<K>],
) -> Result<Replayed<K>, Unplayed<K>>
    ensures { MatchResult result (λ s. Law K.Kind K.Reckoned.own unit table.items calls.now s.book.sheet s.total s.answers.items) (λ u. (u.table ≡ table) × (u.refusal ≡ numbered 24)) }
{
    let Ok(mut answers) = Vec::with_capacity(heap, calls.len()) else {
        return Err(Unplayed {
            table,
            refusal: Refusal::NoMemory,
        });
    };
    let mut ledger = Ledger::make(unit, table);
    for call in calls {
        answers.push_reserved(ledger.call(*call));
    }
    let book = ledger.close();
    let total = total_of(&book);
    Ok(Replayed {
        book,
        total,
        answers,
    })
}
