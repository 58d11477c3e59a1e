//! The entries of a run, one after another.
ghost use Rattle.runs.specs.Places.{left};
ghost use Rattle.std.specs.Iterator.{YieldsFirst, item_count};
ghost use Rattle.std.specs.Prelude.{◌≡◌};

use crate::meaning::Run;

/// The entries of a run in their order, each read once.
#[derive(Drop)]
pub struct Iter<'a, R> {
    run: &'a R,
    given: u32,
}

impl<'a, R: Run> Iter<'a, R> {
    /// All entries of `run`.
    pub fn over(run: &'a R) -> Self
        ensures { left (R.Run.entries result.run.now) result.given ≡ R.Run.entries run.now }
    {
        Iter { run, given: 0 }
    }
}

impl<'a, R: Run> Iterator for Iter<'a, R> {
    type Item = R::Entry;

    ghost next_gives = { YieldsFirst (λ s. left (R.Run.entries s.run.now) s.given) };

    ghost remaining = { item_count (λ s. left (R.Run.entries s.run.now) s.given) };

    fn next(&mut self) -> Option<R::Entry> {
        if self.given >= self.run.count() {
            return None;
        }
        self.given += 1;
        Some(self.run.at(self.given).unwrap())
    }
}
