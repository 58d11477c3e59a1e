//! How often each entry of a run of steps occurs.
ghost use Rattle.kinds.specs.Refusals.{OrNoMemory};
ghost use Rattle.kinds.specs.Steps.{numbering};
ghost use Rattle.reports.specs.Tally.{CountsEach, IsOfEntry, record_of};
ghost use Rattle.std.specs.Prelude.{◌≡◌, ◌≤◌, All, IfOk, MatchResult, length, map};
ghost use Rattle.tallies.specs.Tallies.{Untallied, different};

use crate::counted::Counted;
use kinds::{Kind, Refusal, Steps};
use runs::Run;
use std::alloc::{AllocError, Global};
use tallies::{TallyRecord, blank_records, tally_within};

/// How often each entry of a run of steps occurs, in the order of the entries. Refused with 24, and
/// only for want of memory.
pub fn tally_of<R: Run<Entry = Steps>>(heap: Global, run: &R) -> Result<Vec<Counted>, Refusal>
    ensures { OrNoMemory result (λ v. CountsEach (R.Run.entries run.now) v.items) }
{
    let table = blank_records(heap, run)?;
    tally_with(heap, run, table)
}

/// The same, with a table of records from the caller, whatever it holds. Refused with 17 when it has
/// fewer records than the run has different entries, and only then, or with 24 for want of memory.
pub fn tally_with<R: Run<Entry = Steps>>(
    heap: Global,
    run: &R,
    table: Vec<TallyRecord>,
) -> Result<Vec<Counted>, Refusal>
    ensures counts { MatchResult result (λ v. CountsEach (R.Run.entries run.now) v.items) (Untallied (map numbering.number (R.Run.entries run.now)) table.items) }
    ensures fits { IfOk result (λ _. different (map numbering.number (R.Run.entries run.now)) ≤ length table.items) }
{
    let records = tally_within(heap, run, table)?;
    let mut counts = counted(heap, records.as_slice())?;
    counts.sort_unstable_by_key(|counted| i32::from(counted.entry));
    Ok(counts)
}

// The entries that the records are of.
fn counted(heap: Global, records: &[TallyRecord]) -> Result<Vec<Counted>, AllocError>
    requires { All IsOfEntry records.now }
    ensures { IfOk result (λ v. map record_of v.items ≡ records.now) }
{
    let mut counts = Vec::with_capacity(heap, records.len())?;
    for record in records {
        counts.push_reserved(Counted {
            entry: Steps::from_number(record.number).unwrap(),
            times: record.times,
        });
    }
    Ok(counts)
}
