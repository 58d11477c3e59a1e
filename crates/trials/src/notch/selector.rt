//! Notches as a kind: three bits, joining modulo 5. The numbers 5, 6 and 7 denote none.
ghost use Rattle.trials.specs.Notches.{none, both, back};
ghost use Rattle.trials.specs.Turning.{notches_group, same_notches};
ghost use Rattle.std.proofs.Common.{rules};

use crate::notch::Notch;
use kinds::{Kind, Reckoned};

impl Kind for Notch {
    const WIDTH: u32 = 3;

    const CODE: u8 = 200;

    ghost WIDTH = { 3 };

    ghost CODE = { 200 };

    ghost number = { λ e. e.value };

    ghost narrow = { Prim.search rules };

    ghost coded = { Prim.search rules };

    ghost fits = { Prim.search rules };

    ghost distinct = { same_notches };

    fn number(self) -> u32 {
        u32::from(self.value)
    }

    fn from_number(n: u32) -> Option<Notch> {
        Notch::try_from(u8::try_from(n).ok()?).ok()
    }
}

impl Reckoned for Notch {
    ghost zero = { none };

    ghost join = { both };

    ghost inverse = { back };

    ghost associative = { notches_group.associative };

    ghost commutative = { notches_group.commutative };

    ghost left = { notches_group.left };

    ghost right = { notches_group.right };

    ghost cancels = { notches_group.cancels };

    fn zero() -> Notch {
        Notch::turned(0)
    }

    fn join(self, other: Notch) -> Notch {
        Notch::turned(self.value + other.value)
    }

    fn inverse(self) -> Notch {
        Notch::turned(5 - self.value)
    }
}
