//! Totals and positions of runs.
ghost use Rattle.runs.specs.Places.{total_at};
ghost use Rattle.runs.specs.Positions.{Parts, position_at};
ghost use Rattle.std.specs.Prelude.{◌≡◌};

use crate::iter::Iter;
use crate::meaning::Run;
use crate::parting::Parting;
use kinds::{Reckoned, Refusal, Steps};

/// The join of the first `i` entries of `run`, zero for none. Refused with 1 exactly when `i` is
/// above the count.
pub fn total<R: Run>(run: &R, i: u32) -> Result<R::Entry, Refusal>
where
    R::Entry: Reckoned,
    ensures { result ≡ total_at R.Entry.Reckoned.own (R.Run.entries run.now) i }
{
    if i > run.count() {
        return Err(Refusal::NoPlace);
    }
    let mut sum = <R::Entry>::zero();
    for entry in Iter::over(run).take(i as usize) {
        sum = sum.join(entry);
    }
    Ok(sum)
}

/// The position of a valve after the first `i` entries of a run of steps. Refused with 1 exactly
/// when `i` is above the count.
pub fn position<R: Run<Entry = Steps>>(run: &R, i: u32) -> Result<Steps, Refusal>
    ensures { result ≡ position_at (R.Run.entries run.now) i }
{
    total(run, i)
}

/// The first number of entries after which two runs of steps stand at different positions, with
/// both positions; `None` if they never do as far as both go. Reads each entry once.
pub fn first_parting<A: Run<Entry = Steps>, B: Run<Entry = Steps>>(a: &A, b: &B) -> Option<Parting>
    ensures { Parts (A.Run.entries a.now) (B.Run.entries b.now) result }
{
    let mut first = Steps::zero();
    let mut second = Steps::zero();
    for (i, (one, other)) in Iter::over(a).zip(Iter::over(b)).enumerate() {
        first = first.join(one);
        second = second.join(other);
        if first != second {
            return Some(Parting {
                after: i as u32 + 1,
                first,
                second,
            });
        }
    }
    None
}
