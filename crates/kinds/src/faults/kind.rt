//! How faults are numbered.
ghost use Rattle.kinds.specs.Kinds.{faults, code_of, width_of};
ghost use Rattle.kinds.specs.Entries.{same_faults};
ghost use Rattle.std.proofs.Common.{rules};

use crate::faults::Faults;
use crate::laws::Kind;

impl Kind for Faults {
    const WIDTH: u32 = 4;

    const CODE: u8 = 4;

    ghost WIDTH = { width_of faults };

    ghost CODE = { code_of faults };

    ghost number = { λ e. e.value };

    ghost narrow = { Prim.search rules };

    ghost coded = { Prim.search rules };

    ghost fits = { Prim.search rules };

    ghost distinct = { same_faults };

    fn number(self) -> u32 {
        u32::from(self.value)
    }

    fn from_number(n: u32) -> Option<Faults> {
        Faults::try_from(u8::try_from(n).ok()?).ok()
    }
}
