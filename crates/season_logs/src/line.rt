//! What a line of a log says.
ghost use Rattle.season_logs.specs.Logs.{text};

use kinds::Steps;
use logs::Line;

/// One line of a season's log.
#[derive(Clone, Copy, PartialEq, Eq, Debug)]
pub enum LogLine {
    /// A drive of so many steps.
    Drive(Steps),
    /// The valve was parked: `park`.
    Park,
    /// The valve was restored: `restore`.
    Restore,
}

/// A line is a drive, a signed number of 32 bits with no plus, no leading zero and no minus zero, or
/// one of the words `park` and `restore`.
impl Line for LogLine {
    ghost text = { text };

    fn read(line: &[u8]) -> Option<LogLine> {
        match line {
            b"park" => Some(LogLine::Park),
            b"restore" => Some(LogLine::Restore),
            _ => Steps::read(line).map(LogLine::Drive),
        }
    }
}
