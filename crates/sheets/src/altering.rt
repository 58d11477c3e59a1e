//! Altering the entries of a sheet.
ghost use Rattle.std.specs.Prelude.{◌≡◌, ◌+◌, ◌<◌, [], ◌∷◌, ◌++◌, vec_len, MatchResult};
ghost use Rattle.cells.specs.Cells.{SameTable, own, written};
ghost use Rattle.sheets.specs.History.{correct as ask_correct, enter as ask_enter, refuses, shift as ask_shift, strike as ask_strike};
ghost use Rattle.sheets.specs.Sheets.{Corrected, Entered, Follows, SameBook, Shifted, Struck, entry_told, number_told, stands};
ghost use Rattle.std.specs.Result.{result_err};

use crate::sheet::Sheet;
use cells::Cells;
use kinds::{Kind, Reckoned, Refusal};

// Adds an entry where a cell is free, and answers the new count.
pub(crate) fn add<K: Reckoned>(cells: &mut Cells<K>, entry: K) -> u32
    requires { cells.old.count < own (vec_len cells.old.table) }
    ensures answers { result ≡ cells.old.count + 1 }
    ensures counts { cells.new.count ≡ cells.old.count + 1 }
    ensures adds { written K.Reckoned.own cells.new ≡ written K.Reckoned.own cells.old ++ (entry ∷ []) }
    ensures table { SameTable K.Reckoned.own cells.old cells.new }
{
    cells.push(entry).unwrap()
}

impl<K: Reckoned> Sheet<K> {
    /// Adds an entry at the end and answers the new count. Refused with 2 exactly when no cell is
    /// free, or only one while an amount is parked.
    pub fn enter(&mut self, entry: K) -> Result<u32, Refusal>
        ensures refuses { result_err result ≡ refuses (stands self.old) (ask_enter entry) }
        ensures stays { SameBook K.Reckoned.own self.old self.new }
        ensures leaves { MatchResult result (Entered K.Kind K.Reckoned.own self.old self.new entry) (λ _. self.new ≡ self.old) }
        ensures follows_history { Follows K.Kind K.Reckoned.own (ask_enter entry) self.old self.new (number_told result) }
    {
        if self.free() < self.wanted() {
            return Err(Refusal::NoCells);
        }
        Ok(add(&mut self.cells, entry))
    }

    /// Puts `entry` at `place` and answers the entry that stood there. Refused with 1 exactly when
    /// the place is 0 or above the count.
    pub fn correct(&mut self, place: u32, entry: K) -> Result<K, Refusal>
        ensures refuses { result_err result ≡ refuses (stands self.old) (ask_correct place entry) }
        ensures stays { SameBook K.Reckoned.own self.old self.new }
        ensures leaves { MatchResult result (Corrected K.Kind K.Reckoned.own self.old self.new place entry) (λ _. self.new ≡ self.old) }
        ensures follows_history { Follows K.Kind K.Reckoned.own (ask_correct place entry) self.old self.new (entry_told result) }
    {
        self.cells.put(place, entry)
    }

    /// Joins `amount` to the entry at `place` and answers the new entry. Refused with 1 exactly
    /// when the place is 0 or above the count.
    pub fn shift(&mut self, place: u32, amount: K) -> Result<K, Refusal>
        ensures refuses { result_err result ≡ refuses (stands self.old) (ask_shift place amount) }
        ensures stays { SameBook K.Reckoned.own self.old self.new }
        ensures leaves { MatchResult result (Shifted K.Kind K.Reckoned.own self.old self.new place amount) (λ _. self.new ≡ self.old) }
        ensures follows_history { Follows K.Kind K.Reckoned.own (ask_shift place amount) self.old self.new (entry_told result) }
    {
        self.cells.join_at(place, amount)
    }

    /// Removes the last entry and answers it. Refused with 3 exactly when there is none.
    pub fn strike(&mut self) -> Result<K, Refusal>
        ensures refuses { result_err result ≡ refuses {K = K} (stands self.old) ask_strike }
        ensures stays { SameBook K.Reckoned.own self.old self.new }
        ensures leaves { MatchResult result (Struck K.Kind K.Reckoned.own self.old self.new) (λ _. self.new ≡ self.old) }
        ensures follows_history { Follows K.Kind K.Reckoned.own ask_strike self.old self.new (entry_told result) }
    {
        self.cells.pop()
    }
}
