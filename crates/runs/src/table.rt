//! A plain table as a run.
ghost use Rattle.runs.specs.Few.{cut_few};
ghost use Rattle.runs.specs.Places.{cut};

use crate::meaning::Run;
use crate::place::Place;
use kinds::{Kind, Refusal};

/// A lent table of entries, cut to its first 4,294,967,295.
impl<'a, K: Kind> Run for &'a [K] {
    type Entry = K;

    ghost entries = { λ s. cut s.now };

    ghost few = { λ s. cut_few s.now };

    fn count(&self) -> u32 {
        u32::try_from(self.len()).unwrap_or(u32::MAX)
    }

    fn at(&self, place: u32) -> Result<K, Refusal> {
        let place = Place::among(place, self.count())?;
        let table = *self;
        Ok(table[place.index()])
    }
}
