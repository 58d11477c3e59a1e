//! The kind faults: eleven codes of four bits. They do not join.
ghost use Rattle.kinds.specs.Refusals.{refusal};
ghost use Rattle.std.specs.Prelude.{◌≡◌, ◌<◌, ◌≤◌, MatchResult};

use crate::refusal::Refusal;

mod kind;

/// An entry of the kind faults: 0 to 10.
#[derive(Clone, Copy, PartialEq, Eq, Debug)]
pub struct Faults {
    value: u8,
    ghost known: { value ≤ 10 },
}

/// The entry of a code. Refused with 16 exactly when the code is above 10.
impl TryFrom<u8> for Faults {
    type Error = Refusal;

    ghost try_from_gives = { λ value told. MatchResult told (λ entry. entry.value ≡ value) (λ f. (10 < value) × (f ≡ refusal 16)) };

    fn try_from(value: u8) -> Result<Faults, Refusal> {
        if value <= 10 {
            Ok(Faults { value })
        } else {
            Err(Refusal::NoSuchEntry)
        }
    }
}

/// The code of an entry.
impl From<Faults> for u8 {
    ghost from_gives = { λ entry value. value ≡ entry.value };

    fn from(entry: Faults) -> u8 {
        entry.value
    }
}
