//! The tally of a run.
ghost use Rattle.kinds.specs.Refusals.{OrNoMemory};
ghost use Rattle.std.specs.List.Sorted.{IsNonDecreasing};
ghost use Rattle.std.specs.Prelude.{◌≡◌, ◌+◌, ◌^◌, ◌<◌, ◌≤◌, IfOk, MatchResult, map, length, replicate};
ghost use Rattle.tallies.specs.Groups.{Noted, Written, last_of};
ghost use Rattle.tallies.specs.Tallies.{Answered, Tallied, Untallied, blank, different};

use crate::records::TallyRecord;
use kinds::Refusal;
use runs::{Run, numbers_of};
use std::alloc::{AllocError, Global};

/// Writes one record for each different number of the run, with how often it occurs, into the
/// front of `records`, and answers how many. Refused with 17 when there are too few records, and
/// only then, or with 24 for want of memory; no record is written then. In which order the records
/// stand is not promised.
// by rule the table is the caller's, and too few records are refused
pub fn tally<R: Run>(heap: Global, run: &R, records: &mut [TallyRecord]) -> Result<u32, Refusal>
    ensures { Answered (map R.Entry.Kind.number (R.Run.entries run.now)) records.old records.new result }
{
    let counts = counted(heap, run)?;
    write_front(records, counts.as_slice())
}

/// One record for each different number of the run, with how often it occurs. Refused with 24, and
/// only for want of memory. In which order the records stand is not promised.
pub fn tally_records<R: Run>(heap: Global, run: &R) -> Result<Vec<TallyRecord>, Refusal>
    ensures { OrNoMemory result (λ v. Tallied (map R.Entry.Kind.number (R.Run.entries run.now)) v.items) }
{
    let table = blank_records(heap, run)?;
    tally_within(heap, run, table)
}

/// The same, in a table of records from the caller, whatever it holds. Refused with 17 when it has
/// fewer records than the run has different numbers, and only then, or with 24 for want of memory.
pub fn tally_within<R: Run>(
    heap: Global,
    run: &R,
    table: Vec<TallyRecord>,
) -> Result<Vec<TallyRecord>, Refusal>
    ensures tallies { MatchResult result (λ v. Tallied (map R.Entry.Kind.number (R.Run.entries run.now)) v.items) (Untallied (map R.Entry.Kind.number (R.Run.entries run.now)) table.items) }
    ensures fits { IfOk result (λ _. different (map R.Entry.Kind.number (R.Run.entries run.now)) ≤ length table.items) }
{
    let mut records = table;
    let used = tally(heap, run, records.as_mut_slice())?;
    records.truncate(used as usize);
    Ok(records)
}

/// A table of blank records, one for each entry of the run, so that its tally fits. Fails only for
/// want of memory.
pub fn blank_records<R: Run>(heap: Global, run: &R) -> Result<Vec<TallyRecord>, AllocError>
    ensures enough { IfOk result (λ v. length v.items ≡ length (R.Run.entries run.now)) }
    ensures each { IfOk result (λ v. v.items ≡ replicate (length (R.Run.entries run.now)) blank) }
{
    let none = TallyRecord {
        number: 0,
        times: 0,
    };
    vec![in heap; none; run.count() as usize]
}

// The records of a run. The numbers are sorted, since a map that counts them one at a time takes
// three times as long.
fn counted<R: Run>(heap: Global, run: &R) -> Result<Vec<TallyRecord>, Refusal>
    ensures { OrNoMemory result (λ v. Tallied (map R.Entry.Kind.number (R.Run.entries run.now)) v.items) }
{
    let mut numbers = numbers_of(heap, run)?;
    numbers.sort_unstable();
    Ok(grouped(heap, numbers.as_slice())?)
}

// A record for each different number of a list that rises.
fn grouped(heap: Global, sorted: &[u32]) -> Result<Vec<TallyRecord>, AllocError>
    requires rising { IsNonDecreasing sorted.now }
    requires few { length sorted.now < 2 ^ 32 }
    ensures { IfOk result (λ v. Tallied sorted.now v.items) }
{
    let mut groups = Vec::new(heap);
    for number in sorted {
        note(&mut groups, *number)?;
    }
    Ok(groups)
}

// One number more: the last group grows by one if it is that number's, else a new one begins.
fn note(groups: &mut Vec<TallyRecord>, number: u32) -> Result<(), AllocError>
    requires { (last_of (groups.old.items)).times + 1 < 2 ^ 32 }
    ensures { IfOk result (λ _. Noted groups.old.items number groups.new.items) }
{
    match groups.last_mut() {
        Some(last) if last.number == number => last.times += 1,
        _ => groups.push(TallyRecord { number, times: 1 })?,
    }
    Ok(())
}

// Copies all of `counts` to the front of `records`, if there are so many.
fn write_front(records: &mut [TallyRecord], counts: &[TallyRecord]) -> Result<u32, Refusal>
    requires { length counts.now < 2 ^ 32 }
    ensures { Written counts.now records.old records.new result }
{
    let n = counts.len();
    if records.len() < n {
        return Err(Refusal::NoRoom);
    }
    records[..n].copy_from_slice(counts);
    Ok(n as u32)
}
