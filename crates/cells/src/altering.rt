//! Altering a tree.
ghost use Rattle.std.specs.Prelude.{◌≡◌, ◌+◌, ◌-◌, ◌<◌, ◌≤◌, [], ◌∷◌, ◌++◌, take, set, Ok, Err, vec_len, slice_set};
ghost use Rattle.cells.specs.Cells.{SameTable, own, written};
ghost use Rattle.kinds.specs.Refusals.{refusal};
ghost use Rattle.kinds.specs.declared.refusal.Refusal.{Refusal as Refused};
ghost use Rattle.runs.specs.Places.{entry_at};

use crate::table::Cells;
use crate::walk::{others, raise};
use kinds::{Reckoned, Refusal};
use runs::Place;

impl<K: Reckoned> Cells<K> {
    /// Adds an entry at the end and answers the new count. Refused with 2 exactly when every cell
    /// has its entry, and then nothing is altered. Reads as many cells as two divides the new count.
    pub fn push(&mut self, entry: K) -> Result<u32, Refusal>
        ensures adds { self.old.count < own (vec_len self.old.table) → (result ≡ Ok (self.old.count + 1)) × (self.new.count ≡ self.old.count + 1) × (written K.Reckoned.own self.new ≡ written K.Reckoned.own self.old ++ (entry ∷ [])) }
        ensures refuses { own (vec_len self.old.table) ≤ self.old.count → (result ≡ Err (refusal 2)) × (self.new ≡ self.old) }
        ensures table { SameTable K.Reckoned.own self.old self.new }
    {
        if self.count >= self.capacity() {
            return Err(Refusal::NoCells);
        }
        let place = Place {
            number: self.count + 1,
        };
        let cell = others(self.table.as_slice(), place).join(entry);
        self.table[self.count as usize] = cell;
        self.count = place.number;
        Ok(place.number)
    }

    /// Removes the last entry and answers it; its cell is set to zero. Refused with 3 exactly when
    /// there is none, and then nothing is altered.
    pub fn pop(&mut self) -> Result<K, Refusal>
        ensures counts { self.new.count ≡ self.old.count - 1 }
        ensures removes { 0 < self.old.count → (result ≡ entry_at (written K.Reckoned.own self.old) self.old.count) × (written K.Reckoned.own self.new ≡ take (self.old.count - 1) (written K.Reckoned.own self.old)) }
        ensures refuses { self.old.count ≡ 0 → (result ≡ Err (refusal 3)) × (self.new ≡ self.old) }
        ensures table { SameTable K.Reckoned.own self.old self.new }
    {
        if self.count == 0 {
            return Err(Refusal::NothingToStrike);
        }
        let last = self.entry(Place { number: self.count });
        self.count -= 1;
        self.table[self.count as usize] = K::zero();
        Ok(last)
    }

    /// Joins `amount` to the entry at `place` and answers the new entry. Refused with 1 exactly
    /// when the place is 0 or above the count, and then nothing is altered.
    pub fn join_at(&mut self, place: u32, amount: K) -> Result<K, Refusal>
        ensures counts { self.new.count ≡ self.old.count }
        ensures joins { (e : K) → entry_at (written K.Reckoned.own self.old) place ≡ Ok e → (result ≡ Ok (K.join e amount)) × (written K.Reckoned.own self.new ≡ slice_set (written K.Reckoned.own self.old) (place - 1) (K.join e amount)) }
        ensures refuses { (f : Refused) → entry_at (written K.Reckoned.own self.old) place ≡ Err f → (result ≡ Err f) × (self.new ≡ self.old) }
        ensures table { SameTable K.Reckoned.own self.old self.new }
    {
        let place = Place::among(place, self.count)?;
        let entry = self.entry(place);
        self.raise_at(place, amount);
        Ok(entry.join(amount))
    }

    /// Puts `entry` at `place` and answers the entry that stood there. Refused with 1 exactly when
    /// the place is 0 or above the count, and then nothing is altered.
    pub fn put(&mut self, place: u32, entry: K) -> Result<K, Refusal>
        ensures counts { self.new.count ≡ self.old.count }
        ensures puts { (old : K) → entry_at (written K.Reckoned.own self.old) place ≡ Ok old → (result ≡ Ok old) × (written K.Reckoned.own self.new ≡ slice_set (written K.Reckoned.own self.old) (place - 1) entry) }
        ensures refuses { (f : Refused) → entry_at (written K.Reckoned.own self.old) place ≡ Err f → (result ≡ Err f) × (self.new ≡ self.old) }
        ensures table { SameTable K.Reckoned.own self.old self.new }
    {
        let place = Place::among(place, self.count)?;
        let old = self.entry(place);
        self.raise_at(place, entry.join(old.inverse()));
        Ok(old)
    }

    // Joins an amount to the entry at a place that there is.
    fn raise_at(&mut self, place: Place, amount: K)
        requires { place.number ≤ self.old.count }
        ensures counts { self.new.count ≡ self.old.count }
        ensures joins { (e : K) → entry_at (written K.Reckoned.own self.old) place.number ≡ Ok e → written K.Reckoned.own self.new ≡ slice_set (written K.Reckoned.own self.old) (place.number - 1) (K.join e amount) }
        ensures table { SameTable K.Reckoned.own self.old self.new }
    {
        let count = self.count;
        raise(self.table.as_mut_slice(), count, place, amount);
    }
}
