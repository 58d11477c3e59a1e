//! The totals of a run, as a run.
ghost use Rattle.std.specs.Prelude.{◌^◌, ◌<◌, length};

use crate::iter::Iter;
use crate::meaning::Run;
use crate::place::Place;
use kinds::{Kind, Reckoned, Refusal};
use std::alloc::Global;

/// At place i the join of the first i entries of some run. The joins are worked out once, when the
/// layer is made, so that reading any of them costs the same.
#[derive(Drop)]
pub struct Totals<K> {
    joins: Vec<K>,
    ghost few: { length joins.items < 2 ^ 32 },
}

impl<K: Reckoned> Totals<K> {
    ghost use Rattle.kinds.specs.Refusals.{OrNoMemory};
    ghost use Rattle.runs.specs.Places.{running};
    ghost use Rattle.std.specs.Prelude.{◌≡◌};

    /// The totals of the first 1, 2, 3 .. entries of `run`. Refused with 24, and only for want of
    /// memory.
    pub fn over<R: Run<Entry = K>>(heap: Global, run: &R) -> Result<Self, Refusal>
        ensures { OrNoMemory result (λ t. t.joins.items ≡ running K.Reckoned.own (R.Run.entries run.now)) }
    {
        let mut joins = Vec::with_capacity(heap, run.count() as usize)?;
        let mut sum = K::zero();
        for entry in Iter::over(run) {
            sum = sum.join(entry);
            joins.push_reserved(sum);
        }
        Ok(Totals { joins })
    }
}

impl<K: Kind> Run for Totals<K> {
    type Entry = K;

    ghost entries = { λ s. s.joins.items };

    ghost few = { λ s. s.few };

    fn count(&self) -> u32 {
        self.joins.len() as u32
    }

    fn at(&self, place: u32) -> Result<K, Refusal> {
        let place = Place::among(place, self.count())?;
        Ok(self.joins[place.index()])
    }
}
