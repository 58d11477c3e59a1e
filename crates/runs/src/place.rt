//! Places of entries.
ghost use Rattle.kinds.specs.Refusals.{refusal};
ghost use Rattle.std.specs.Prelude.{◌≡◌, ◌+◌, ◌^◌, ◌<◌, ◌≤◌, ◌⊎◌, MatchResult};

use kinds::Refusal;

/// A place that an entry may have, counted from 1.
#[derive(Clone, Copy, PartialEq, Eq, Debug)]
pub struct Place {
    /// The place, as a number.
    pub number: u32,
    pub ghost from_one: { 0 < number },
    pub ghost fits: { number < 2 ^ 32 },
}

impl Place {
    /// The place of this number among `count` entries. Refused with 1 exactly when no entry stands
    /// there: the number is 0 or above the count.
    pub fn among(number: u32, count: u32) -> Result<Place, Refusal>
        ensures { MatchResult result (λ p. (p.number ≡ number) × (number ≤ count)) (λ f. (f ≡ refusal 1) × ((number ≡ 0) ⊎ (count < number))) }
    {
        if number == 0 || number > count {
            return Err(Refusal::NoPlace);
        }
        Ok(Place { number })
    }

    /// Where in a table the entry of this place stands.
    pub fn index(self) -> usize
        ensures { result + 1 ≡ self.number }
    {
        self.number as usize - 1
    }
}
