//! A drive as a line of a log.
ghost use Rattle.logs.specs.Drives.{text};

use crate::line::Line;
use kinds::Steps;
use numerals::read_signed;

/// A drive: a signed number of 32 bits with no plus, no leading zero and no minus zero.
impl Line for Steps {
    ghost text = { text };

    fn read(line: &[u8]) -> Option<Steps> {
        read_signed(line).map(Steps::from)
    }
}
