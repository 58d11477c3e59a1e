//! The kind counts: 32-bit numbers, joining modulo 2^32.
ghost use Rattle.std.specs.Prelude.{◌≡◌, ◌^◌, ◌<◌};

mod kind;

/// An entry of the kind counts: 0 to 2^32 − 1.
#[derive(Clone, Copy, PartialEq, Eq, Debug)]
pub struct Counts {
    value: u32,
    ghost fits: { value < 2 ^ 32 },
}

/// The entry of a value.
impl From<u32> for Counts {
    ghost from_gives = { λ value entry. entry.value ≡ value };

    fn from(value: u32) -> Counts {
        Counts { value }
    }
}

/// The value of an entry.
impl From<Counts> for u32 {
    ghost from_gives = { λ entry value. value ≡ entry.value };

    fn from(entry: Counts) -> u32 {
        entry.value
    }
}
