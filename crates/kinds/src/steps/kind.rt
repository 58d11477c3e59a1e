//! How steps are numbered and how they join.
ghost use Rattle.kinds.specs.Kinds.{steps, code_of, width_of};
ghost use Rattle.kinds.specs.Steps.{zigzag, none, both, back};
ghost use Rattle.kinds.specs.Entries.{zigzag_fits, same_steps, zigzag_distinct, steps_group};
ghost use Rattle.std.proofs.Common.{rules};

use crate::laws::{Kind, Reckoned};
use crate::steps::Steps;

impl Kind for Steps {
    const WIDTH: u32 = 32;

    const CODE: u8 = 2;

    ghost WIDTH = { width_of steps };

    ghost CODE = { code_of steps };

    ghost number = { λ e. zigzag e.value };

    ghost narrow = { Prim.search rules };

    ghost coded = { Prim.search rules };

    ghost fits = { λ e. zigzag_fits e.value e.fits };

    ghost distinct = { λ d e h. same_steps d e (zigzag_distinct d.value e.value h) };

    fn number(self) -> u32 {
        if self.value < 0 {
            (-(self.value + 1)) as u32 * 2 + 1
        } else {
            self.value as u32 * 2
        }
    }

    fn from_number(n: u32) -> Option<Steps> {
        let half = (n / 2) as i32;
        if n % 2 == 0 {
            Some(Steps::from(half))
        } else {
            Some(Steps::from(-half - 1))
        }
    }
}

impl Reckoned for Steps {
    ghost zero = { none };

    ghost join = { both };

    ghost inverse = { back };

    ghost associative = { steps_group.associative };

    ghost commutative = { steps_group.commutative };

    ghost left = { steps_group.left };

    ghost right = { steps_group.right };

    ghost cancels = { steps_group.cancels };

    fn zero() -> Steps {
        Steps::from(0)
    }

    fn join(self, other: Steps) -> Steps {
        Steps::from(self.value.wrapping_add(other.value))
    }

    fn inverse(self) -> Steps {
        Steps::from(self.value.wrapping_neg())
    }
}
