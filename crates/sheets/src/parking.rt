//! Parking a sheet and ending the parking.
ghost use Rattle.kinds.specs.Refusals.{refusal as numbered};
ghost use Rattle.sheets.specs.History.{give_up, park as ask_park, refuses, restore as ask_restore, takes_slip};
ghost use Rattle.sheets.specs.Sheets.{Follows, GivenUp, Parked, Restored, SameBook, number_told, slip_told, stands, without_slip};
ghost use Rattle.std.specs.Result.{result_err};
ghost use Rattle.std.specs.Prelude.{◌≡◌, Some as Kept, None as Unparked, MatchOption, MatchResult};

use crate::altering::add;
use crate::sheet::Sheet;
use crate::slip::{HandedBack, Slip};
use kinds::{Kind, Reckoned, Refusal};

// The amount that a number denotes; by rule it is kept as its number, which always denotes one.
fn amount_of<K: Reckoned>(number: u32) -> K
    ensures { (t : K) → K.Kind.number t ≡ number → result ≡ t }
{
    K::from_number(number).unwrap_or(K::zero())
}

impl<K: Reckoned> Sheet<K> {
    /// Parks the sheet: enters the inverse of the total of all entries, keeps that total as the
    /// parked amount, and answers a slip that bears the unit number. Refused with 4 exactly when an
    /// amount is parked already, else with 2 exactly when fewer than two cells are free.
    pub fn park(&mut self) -> Result<Slip, Refusal>
        ensures refuses { result_err result ≡ refuses {K = K} (stands self.old) ask_park }
        ensures stays { SameBook K.Reckoned.own self.old self.new }
        ensures leaves { MatchResult result (Parked K.Kind K.Reckoned.own self.old self.new) (λ _. self.new ≡ self.old) }
        ensures follows_history { Follows K.Kind K.Reckoned.own ask_park self.old self.new (slip_told result) }
    {
        if self.parked.is_some() {
            return Err(Refusal::AlreadyParked);
        }
        if self.free() < 2 {
            return Err(Refusal::NoCells);
        }
        let amount = self.cells.sum();
        add(&mut self.cells, amount.inverse());
        self.parked = Some(amount.number());
        Ok(Slip::issue(self.unit))
    }

    // The number of the amount that is parked under a slip.
    fn parked_under(&self, slip: &Slip) -> Option<u32>
        ensures { MatchOption result (takes_slip (stands self.now) slip.now.unit ≡ Kept (numbered 5)) (λ n. (self.now.parked ≡ Kept n) × (takes_slip (stands self.now) slip.now.unit ≡ Unparked)) }
    {
        if slip.unit() != self.unit {
            return None;
        }
        self.parked
    }

    /// Takes the slip, enters the parked amount, ends the parking and answers the new count.
    /// Refused with 5 exactly when nothing is parked or the unit number is not the slip's; the slip
    /// is then handed back.
    pub fn restore(&mut self, slip: Slip) -> Result<u32, HandedBack>
        ensures refuses { result_err (without_slip result) ≡ refuses {K = K} (stands self.old) (ask_restore slip.unit) }
        ensures stays { SameBook K.Reckoned.own self.old self.new }
        ensures leaves { MatchResult result (Restored K.Kind K.Reckoned.own self.old self.new) (λ back. (back.slip ≡ slip) × (self.new ≡ self.old)) }
        ensures follows_history { Follows K.Kind K.Reckoned.own (ask_restore slip.unit) self.old self.new (number_told (without_slip result)) }
    {
        let Some(number) = self.parked_under(&slip) else {
            return Err(slip.hand_back());
        };
        slip.spend();
        self.parked = None;
        Ok(add(&mut self.cells, amount_of(number)))
    }

    /// Takes the slip, ends the parking, enters nothing and answers the count. Refused with 5
    /// exactly when nothing is parked or the unit number is not the slip's; the slip is then handed
    /// back.
    pub fn give_up(&mut self, slip: Slip) -> Result<u32, HandedBack>
        ensures refuses { result_err (without_slip result) ≡ refuses {K = K} (stands self.old) (give_up slip.unit) }
        ensures stays { SameBook K.Reckoned.own self.old self.new }
        ensures leaves { MatchResult result (GivenUp K.Kind K.Reckoned.own self.old self.new) (λ back. (back.slip ≡ slip) × (self.new ≡ self.old)) }
        ensures follows_history { Follows K.Kind K.Reckoned.own (give_up slip.unit) self.old self.new (number_told (without_slip result)) }
    {
        let Some(_) = self.parked_under(&slip) else {
            return Err(slip.hand_back());
        };
        slip.spend();
        self.parked = None;
        Ok(self.cells.count())
    }
}
