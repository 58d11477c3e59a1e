//! The slip: a token held beside a parked sheet.
ghost use Rattle.kinds.specs.Refusals.{refusal as numbered};
ghost use Rattle.std.specs.Prelude.{◌≡◌, true, false};

use kinds::Refusal;

/// What parking a sheet hands out. It bears the unit number of its sheet.
///
/// A slip must end in `restore` or `give_up`: only these spend it, and one that is not spent may
/// not be let go, so a program that forgets a slip is refused by the check.
// a flag and not a type for each state: by rule the drop of a slip is admitted when it is spent
pub struct Slip {
    unit: u32,
    spent: bool,
}

impl Drop for Slip {
    fn drop(self)
        requires { self.spent ≡ true }
    {
        let Slip { unit: _, spent: _ } = self;
    }
}

impl Slip {
    /// The unit number of the sheet that handed it out.
    pub fn unit(&self) -> u32
        ensures { result ≡ self.now.unit }
    {
        self.unit
    }

    // A new slip.
    pub(crate) fn issue(unit: u32) -> Slip
        ensures { (result.unit ≡ unit) × (result.spent ≡ false) }
    {
        Slip { unit, spent: false }
    }

    // The end of a slip.
    pub(crate) fn spend(self) {
        let mut slip = self;
        slip.spent = true;
    }

    // The slip handed back with the refusal of slips that do not fit.
    pub(crate) fn hand_back(self) -> HandedBack
        ensures { (result.slip ≡ self) × (result.refusal ≡ numbered 5) }
    {
        HandedBack {
            slip: self,
            refusal: Refusal::WrongSlip,
        }
    }
}

/// A slip that was not taken, and why.
pub struct HandedBack {
    /// The slip, as it was handed over.
    pub slip: Slip,
    /// The refusal.
    pub refusal: Refusal,
}
