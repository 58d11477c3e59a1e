//! Seasons replayed, and held to what they must come to.
use kinds::{Kind, Reckoned, Refusal};
use ledgers::{Call, Replayed, replay};
use runs::Run;
use sheets::{Answer, ClosedSheet};
use std::alloc::Global;
use std::process::Abort;
use std::test::Fail;

// A season in plain numbers: its calls with their answers, and the entries, the cells and the total
// at its end.
#[derive(Clone, Copy)]
pub(crate) struct Season<'a, N> {
    pub(crate) name: &'a str,
    pub(crate) unit: u32,
    pub(crate) calls: &'a [(Call<N>, Result<Answer<N>, Refusal>)],
    pub(crate) entries: &'a [N],
    pub(crate) cells: &'a [N],
    pub(crate) total: N,
}

// A call on entries, from one on plain numbers.
// Here and not a `map` of `Call`, since only these trials ask for it.
fn asked<N, K, F: Fn(N) -> K>(call: Call<N>, entry: &F) -> Call<K>
    requires { F.IsAlwaysCallable entry.now }
{
    match call {
        Call::Enter(e) => Call::Enter(entry(e)),
        Call::Correct(place, e) => Call::Correct(place, entry(e)),
        Call::Shift(place, amount) => Call::Shift(place, entry(amount)),
        Call::Strike => Call::Strike,
        Call::Park => Call::Park,
        Call::Restore => Call::Restore,
        Call::GiveUp => Call::GiveUp,
        Call::At(place) => Call::At(place),
        Call::Total(i) => Call::Total(i),
        Call::Count => Call::Count,
    }
}

// A reply in plain numbers.
fn plainly<N, K: Into<N>>(reply: Result<Answer<K>, Refusal>) -> Result<Answer<N>, Refusal> {
    match reply? {
        Answer::Number(n) => Ok(Answer::Number(n)),
        Answer::Entry(e) => Ok(Answer::Entry(e.into())),
        Answer::Slip(unit) => Ok(Answer::Slip(unit)),
    }
}

// The season of these calls, on a sheet of so many cells that were not zero before.
pub(crate) fn played<N: Copy + From<u8>, K: Reckoned, F: Fn(N) -> K>(
    heap: Global,
    unit: u32,
    cells: usize,
    calls: &[Call<N>],
    entry: &F,
) -> Result<Replayed<K>, Fail>
    requires { F.IsAlwaysCallable entry.now }
{
    let calls: Vec<Call<K>> = calls.iter().map(|call| asked(*call, entry)).collect(heap)?;
    let table = vec![in heap; entry(N::from(3)); cells]?;
    replay(heap, unit, table, calls.as_slice()).map_err(|_| Fail::new("no memory"))
}

// That the calls of a season answer what stands beside them, and leave its entries, cells and total.
pub(crate) fn comes_to<N: Copy + PartialEq + From<u8>, K: Reckoned + Into<N>, F: Fn(N) -> K>(
    rt: &impl Abort,
    heap: Global,
    season: Season<'_, N>,
    entry: &F,
) -> Result<(), Fail>
    requires { F.IsAlwaysCallable entry.now }
{
    let calls: Vec<Call<N>> = season.calls.iter().map(|(call, _)| *call).collect(heap)?;
    let replayed = played(
        heap,
        season.unit,
        season.cells.len(),
        calls.as_slice(),
        entry,
    )?;
    let answered = answers(replayed.answers.as_slice(), season.calls);
    let kept = has(replayed.book.cells(), season.cells);
    let read = reads(&replayed.book, season.entries, season.total);
    let summed = replayed.total.into() == season.total;
    holds(rt, answered, "its answers", season.name);
    holds(rt, kept, "its cells", season.name);
    holds(rt, summed, "its total", season.name);
    holds(rt, read, "its entries", season.name);
    Ok(())
}

// Ends the test, naming the season, where what was asked of it is not right.
fn holds(rt: &impl Abort, right: bool, what: &str, season: &str) {
    assert!(rt; right, "{season}: {what}");
}

// Whether replies are those beside the calls.
fn answers<N: Copy + PartialEq, K: Copy + Into<N>>(
    replies: &[Result<Answer<K>, Refusal>],
    calls: &[(Call<N>, Result<Answer<N>, Refusal>)],
) -> bool {
    replies.len() == calls.len()
        && replies
            .iter()
            .zip(calls)
            .all(|(reply, (_, expected))| plainly(*reply) == *expected)
}

// Whether a table has just these numbers.
fn has<N: Copy + PartialEq, K: Copy + Into<N>>(table: &[K], numbers: &[N]) -> bool {
    table.len() == numbers.len()
        && table
            .iter()
            .zip(numbers)
            .all(|(cell, number)| (*cell).into() == *number)
}

// Whether an entry is there, and is this number.
fn is_there<N: Copy + PartialEq, K: Copy + Into<N>>(told: Result<K, Refusal>, number: N) -> bool {
    told.is_ok_and(|entry| entry.into() == number)
}

// Whether a closed sheet reads as these entries, place by place and as a run.
fn reads<N: Copy + PartialEq, K: Reckoned + Into<N>>(
    book: &ClosedSheet<K>,
    entries: &[N],
    total: N,
) -> bool {
    book.count() as usize == entries.len()
        && (1u32..)
            .zip(entries)
            .all(|(place, number)| is_there(book.at(place), *number))
        && is_there(runs::total(book, book.count()), total)
}
