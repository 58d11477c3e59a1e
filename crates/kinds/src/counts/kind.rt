//! How counts are numbered and how they join.
ghost use Rattle.kinds.specs.Kinds.{counts, code_of, width_of};
ghost use Rattle.kinds.specs.Counts.{none, both, back};
ghost use Rattle.kinds.specs.Entries.{same_counts, counts_group};
ghost use Rattle.std.proofs.Common.{rules};

use crate::counts::Counts;
use crate::laws::{Kind, Reckoned};

impl Kind for Counts {
    const WIDTH: u32 = 32;

    const CODE: u8 = 1;

    ghost WIDTH = { width_of counts };

    ghost CODE = { code_of counts };

    ghost number = { λ e. e.value };

    ghost narrow = { Prim.search rules };

    ghost coded = { Prim.search rules };

    ghost fits = { Prim.search rules };

    ghost distinct = { same_counts };

    fn number(self) -> u32 {
        self.value
    }

    fn from_number(n: u32) -> Option<Counts> {
        Some(Counts::from(n))
    }
}

impl Reckoned for Counts {
    ghost zero = { none };

    ghost join = { both };

    ghost inverse = { back };

    ghost associative = { counts_group.associative };

    ghost commutative = { counts_group.commutative };

    ghost left = { counts_group.left };

    ghost right = { counts_group.right };

    ghost cancels = { counts_group.cancels };

    fn zero() -> Counts {
        Counts::from(0)
    }

    fn join(self, other: Counts) -> Counts {
        Counts::from(self.value.wrapping_add(other.value))
    }

    fn inverse(self) -> Counts {
        Counts::from(self.value.wrapping_neg())
    }
}
