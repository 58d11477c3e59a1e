//! The word for what is counted.
ghost use Rattle.reports.specs.Lines.{word_text};
ghost use Rattle.std.specs.Prelude.{Some};

use std::fmt;

/// What a line of a report counts.
#[derive(Clone, Copy, PartialEq, Eq, Debug)]
pub enum Word {
    /// The drives of a log.
    Drive,
    /// The entries of a book.
    Entry,
}

impl fmt::Display for Word {
    ghost output = { λ word. Some (word_text word) };

    fn fmt<W: fmt::Write>(&self, f: &mut fmt::Formatter<W>) -> fmt::Result {
        match self {
            Word::Drive => write!(f, "drive"),
            Word::Entry => write!(f, "entry"),
        }
    }
}
