//! The numbers of a run's entries.
ghost use Rattle.std.specs.Prelude.{◌≡◌, map};
ghost use Rattle.kinds.specs.Refusals.{OrNoMemory};

use crate::iter::Iter;
use crate::meaning::Run;
use kinds::{Kind, Refusal};
use std::alloc::Global;

/// The numbers of the entries of `run`, in their order. Refused with 24, and only for want of memory.
pub fn numbers_of<R: Run>(heap: Global, run: &R) -> Result<Vec<u32>, Refusal>
    ensures { OrNoMemory result (λ v. v.items ≡ map R.Entry.Kind.number (R.Run.entries run.now)) }
{
    let mut numbers = Vec::with_capacity(heap, run.count() as usize)?;
    for entry in Iter::over(run) {
        numbers.push_reserved(entry.number());
    }
    Ok(numbers)
}
