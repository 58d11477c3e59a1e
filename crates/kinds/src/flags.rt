//! The kind flags: one byte, joining by exclusive or.
ghost use Rattle.std.specs.Prelude.{◌≡◌, ◌^◌, ◌<◌};

mod kind;

/// An entry of the kind flags: one byte.
#[derive(Clone, Copy, PartialEq, Eq, Debug)]
pub struct Flags {
    value: u8,
    ghost fits: { value < 2 ^ 8 },
}

/// The entry of a byte.
impl From<u8> for Flags {
    ghost from_gives = { λ value entry. entry.value ≡ value };

    fn from(value: u8) -> Flags {
        Flags { value }
    }
}

/// The byte of an entry.
impl From<Flags> for u8 {
    ghost from_gives = { λ entry value. value ≡ entry.value };

    fn from(entry: Flags) -> u8 {
        entry.value
    }
}
