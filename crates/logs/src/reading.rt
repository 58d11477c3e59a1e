//! Reading a log.
ghost use Rattle.logs.specs.Logs.{Reads};

use crate::fault::BadLine;
use crate::line::Line;
use crate::lines::Lines;
use kinds::Refusal;
use std::alloc::Global;

/// What the lines of a log say. Lines end in a newline, the last also at the end of the log. The
/// first line that says nothing is refused with 6, and one for which there is no memory with 24.
pub fn read_log<L: Line>(heap: Global, log: &[u8]) -> Result<Vec<L>, BadLine>
    ensures { Reads L.text log.now result }
{
    let mut said = Vec::new(heap);
    for (before, bytes) in Lines(log).enumerate() {
        let line = before as u64 + 1;
        let says = L::read(bytes).ok_or(BadLine {
            line,
            refusal: Refusal::NotAForm,
        })?;
        said.push(says).map_err(|_| BadLine {
            line,
            refusal: Refusal::NoMemory,
        })?;
    }
    Ok(said)
}
