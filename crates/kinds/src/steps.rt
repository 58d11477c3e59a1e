//! The kind steps: signed 32-bit drives, joining modulo 2^32.
ghost use Rattle.std.specs.Fmt.{signed_decimal};
ghost use Rattle.std.specs.Prelude.{◌≡◌, ◌^◌, ◌<◌, Some};
ghost use Rattle.std.specs.Int.Signed.{mag};

use std::fmt;

mod kind;

/// An entry of the kind steps: a drive of so many steps, signed, of 32 bits.
#[derive(Clone, Copy, PartialEq, Eq, Debug)]
pub struct Steps {
    value: i32,
    // `mag` is s, or −s − 1 when s is negative
    ghost fits: { mag value < 2 ^ 31 },
}

/// The drive of so many steps.
impl From<i32> for Steps {
    ghost from_gives = { λ value entry. entry.value ≡ value };

    fn from(value: i32) -> Steps {
        Steps { value }
    }
}

/// How many steps a drive has.
impl From<Steps> for i32 {
    ghost from_gives = { λ entry value. value ≡ entry.value };

    fn from(entry: Steps) -> i32 {
        entry.value
    }
}

/// A drive is written as its number of steps.
impl fmt::Display for Steps {
    ghost output = { λ steps. Some (signed_decimal steps.value) };

    fn fmt<W: fmt::Write>(&self, f: &mut fmt::Formatter<W>) -> fmt::Result {
        let value = self.value;
        write!(f, "{value}")
    }
}
