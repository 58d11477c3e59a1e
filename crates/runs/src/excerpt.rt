//! A part of another run.
ghost use Rattle.runs.specs.Few.{part_few};
ghost use Rattle.runs.specs.Places.{part};
ghost use Rattle.std.specs.Prelude.{◌≡◌};

use crate::meaning::Run;
use crate::place::Place;
use kinds::Refusal;

/// The run below without its first `skipped` entries, and of the rest the first `most`, or all if
/// there are fewer.
#[derive(Drop)]
pub struct Excerpt<R> {
    below: R,
    skipped: u32,
    most: u32,
}

impl<R: Run> Excerpt<R> {
    /// Leaves out the first `skipped` entries of `below`, and all but the first `most` of the rest.
    pub fn new(below: R, skipped: u32, most: u32) -> Self
        ensures { (result.below ≡ below) × (result.skipped ≡ skipped) × (result.most ≡ most) }
    {
        Excerpt {
            below,
            skipped,
            most,
        }
    }
}

impl<R: Run> Run for Excerpt<R> {
    type Entry = R::Entry;

    ghost entries = { λ s. part (R.Run.entries s.below) s.skipped s.most };

    ghost few = { λ s. part_few (R.Run.entries s.below) s.skipped s.most (R.Run.few s.below) };

    fn count(&self) -> u32 {
        self.below
            .count()
            .saturating_sub(self.skipped)
            .min(self.most)
    }

    fn at(&self, place: u32) -> Result<R::Entry, Refusal> {
        let place = Place::among(place, self.count())?;
        self.below.at(self.skipped + place.number)
    }
}
