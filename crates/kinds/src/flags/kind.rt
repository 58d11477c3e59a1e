//! How flags are numbered and how they join.
ghost use Rattle.kinds.specs.Kinds.{flags, code_of, width_of};
ghost use Rattle.kinds.specs.Flags.{none, both, back};
ghost use Rattle.kinds.specs.Entries.{same_flags, flags_group};
ghost use Rattle.std.proofs.Common.{rules};

use crate::flags::Flags;
use crate::laws::{Kind, Reckoned};

impl Kind for Flags {
    const WIDTH: u32 = 8;

    const CODE: u8 = 3;

    ghost WIDTH = { width_of flags };

    ghost CODE = { code_of flags };

    ghost number = { λ e. e.value };

    ghost narrow = { Prim.search rules };

    ghost coded = { Prim.search rules };

    ghost fits = { Prim.search rules };

    ghost distinct = { same_flags };

    fn number(self) -> u32 {
        u32::from(self.value)
    }

    fn from_number(n: u32) -> Option<Flags> {
        u8::try_from(n).ok().map(Flags::from)
    }
}

impl Reckoned for Flags {
    ghost zero = { none };

    ghost join = { both };

    ghost inverse = { back };

    ghost associative = { flags_group.associative };

    ghost commutative = { flags_group.commutative };

    ghost left = { flags_group.left };

    ghost right = { flags_group.right };

    ghost cancels = { flags_group.cancels };

    fn zero() -> Flags {
        Flags::from(0)
    }

    fn join(self, other: Flags) -> Flags {
        Flags::from(self.value ^ other.value)
    }

    fn inverse(self) -> Flags {
        self
    }
}
