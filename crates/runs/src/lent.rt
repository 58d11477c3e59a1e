//! A run that is lent.
use crate::meaning::Run;
use kinds::Refusal;

/// A lent run is a run of the same entries, so that a layer may stand on a run without taking it.
impl<'a, R: Run> Run for &'a R {
    type Entry = R::Entry;

    ghost entries = { λ s. R.Run.entries s.now };

    ghost few = { λ s. R.Run.few s.now };

    fn count(&self) -> u32 {
        R::count(*self)
    }

    fn at(&self, place: u32) -> Result<R::Entry, Refusal> {
        R::at(*self, place)
    }
}
