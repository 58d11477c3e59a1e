//! A season's log as a book.
ghost use Rattle.std.specs.Prelude.{◌≡◌, map};
ghost use Rattle.kinds.specs.Refusals.{OrNoMemory};
ghost use Rattle.kinds.specs.Steps.{numbering, reckoned};
ghost use Rattle.ledgers.specs.Law.{Law};
ghost use Rattle.seasons.specs.Seasons.{call_of, table_for};

use kinds::{Reckoned, Refusal, Steps};
use ledgers::{Call, Replayed, replay};
use season_logs::LogLine;
use std::alloc::Global;

// The call that a line asks for. No `From`, since neither type is this crate's.
fn call_of(line: LogLine) -> Call<Steps>
    ensures { result ≡ call_of line }
{
    match line {
        LogLine::Drive(steps) => Call::Enter(steps),
        LogLine::Park => Call::Park,
        LogLine::Restore => Call::Restore,
    }
}

/// The calls that the lines of a log ask for, in their order. Refused with 24, and only for want of
/// memory.
pub fn calls_of(heap: Global, lines: &[LogLine]) -> Result<Vec<Call<Steps>>, Refusal>
    ensures { OrNoMemory result (λ v. v.items ≡ map call_of lines.now) }
{
    Ok(lines.iter().map(|line| call_of(*line)).collect(heap)?)
}

/// Replays the log of a season as a book of steps, a drive being entered, with a cell for each line
/// and one more. The book keeps the law: its total and its answers are what the history of the log
/// says. Refused with 24, and only for want of memory.
pub fn replay_log(heap: Global, unit: u32, lines: &[LogLine]) -> Result<Replayed<Steps>, Refusal>
    ensures { OrNoMemory result (λ s. Law numbering reckoned unit (table_for lines.now) (map call_of lines.now) s.book.sheet s.total s.answers.items) }
{
    let calls = calls_of(heap, lines)?;
    let table = vec![in heap; Steps::zero(); lines.len() + 1]?;
    replay(heap, unit, table, calls.as_slice()).map_err(|unplayed| unplayed.refusal)
}
