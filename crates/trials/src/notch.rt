//! A fifth kind of entry: the five notches of a turning selector.
ghost use Rattle.kinds.specs.Refusals.{refusal};
ghost use Rattle.std.specs.Prelude.{◌≡◌, ◌%◌, ◌<◌, ◌≤◌, MatchResult};

use kinds::Refusal;

mod selector;

/// A notch, 0 to 4.
#[derive(Clone, Copy, PartialEq, Eq, Debug)]
pub struct Notch {
    value: u8,
    ghost known: { value < 5 },
}

impl Notch {
    /// The notch that a number comes to, modulo 5.
    pub fn turned(value: u8) -> Self
        ensures { result.value ≡ value % 5 }
    {
        Notch { value: value % 5 }
    }
}

/// The notch of a value. Refused with 16 exactly when the value is above 4.
impl TryFrom<u8> for Notch {
    type Error = Refusal;

    ghost try_from_gives = { λ value told. MatchResult told (λ notch. notch.value ≡ value) (λ f. (5 ≤ value) × (f ≡ refusal 16)) };

    fn try_from(value: u8) -> Result<Notch, Refusal> {
        if value < 5 {
            Ok(Notch { value })
        } else {
            Err(Refusal::NoSuchEntry)
        }
    }
}

/// The value of a notch.
impl From<Notch> for u8 {
    ghost from_gives = { λ notch value. value ≡ notch.value };

    fn from(notch: Notch) -> u8 {
        notch.value
    }
}
