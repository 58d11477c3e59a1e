//! Any call on a ledger, and its end.
ghost use Rattle.ledgers.specs.Law.{by_slip};
ghost use Rattle.ledgers.specs.Unchanged.{TurnedDown};
ghost use Rattle.sheets.specs.History.{History, after, give_up, park as ask_park};
ghost use Rattle.sheets.specs.Sheets.{Follows, Keeps, SameBook};
ghost use Rattle.std.specs.Prelude.{◌≡◌, None as Unparked};

use crate::call::Call;
use crate::ledger::Ledger;
use kinds::{Kind, Reckoned, Refusal};
use sheets::{Answer, ClosedSheet};

impl<K: Reckoned> Ledger<K> {
    /// Carries out a call, or turns it down, and answers what its own method answers; of `Park` the
    /// unit number of the slip that the ledger keeps.
    pub fn call(&mut self, call: Call<K>) -> Result<Answer<K>, Refusal>
        ensures stays { SameBook K.Reckoned.own self.old.sheet self.new.sheet }
        ensures unchanged { TurnedDown result self.old self.new }
        ensures follows_history { Follows K.Kind K.Reckoned.own (by_slip self.old.sheet.unit call) self.old.sheet self.new.sheet result }
    {
        // a call is data, which the law takes lists of, and no step to look up
        match call {
            Call::Enter(e) => Ok(Answer::Number(self.enter(e)?)),
            Call::Correct(place, e) => Ok(Answer::Entry(self.correct(place, e)?)),
            Call::Shift(place, amount) => Ok(Answer::Entry(self.shift(place, amount)?)),
            Call::Strike => Ok(Answer::Entry(self.strike()?)),
            Call::Park => self.park_told(),
            Call::Restore => Ok(Answer::Number(self.restore()?)),
            Call::GiveUp => Ok(Answer::Number(self.give_up()?)),
            Call::At(place) => Ok(Answer::Entry(self.sheet.at(place)?)),
            Call::Total(i) => Ok(Answer::Entry(self.sheet.total(i)?)),
            Call::Count => Ok(Answer::Number(self.sheet.count())),
        }
    }

    // Parks the sheet and tells the unit number of its slip.
    fn park_told(&mut self) -> Result<Answer<K>, Refusal>
        ensures stays { SameBook K.Reckoned.own self.old.sheet self.new.sheet }
        ensures unchanged { TurnedDown result self.old self.new }
        ensures follows_history { Follows K.Kind K.Reckoned.own ask_park self.old.sheet self.new.sheet result }
    {
        let unit = self.sheet.unit();
        self.park()?;
        Ok(Answer::Slip(unit))
    }

    /// Ends the ledger: gives up a slip still held and closes the sheet, whose entries stay as they
    /// are.
    pub fn close(self) -> ClosedSheet<K>
        ensures stays { SameBook K.Reckoned.own self.sheet result.sheet }
        ensures unaltered { result.sheet.cells ≡ self.sheet.cells }
        ensures unparked { result.sheet.parked ≡ Unparked }
        ensures follows_history { (h : History K) → Keeps K.Kind K.Reckoned.own h self.sheet → Keeps K.Kind K.Reckoned.own (after K.Reckoned.own h (give_up self.sheet.unit)) result.sheet }
    {
        let mut ledger = self;
        let _ = ledger.give_up();
        let Ledger { sheet, slip: _ } = ledger;
        sheet.close()
    }
}
