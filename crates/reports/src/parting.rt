//! Where two runs part, as it is printed.
ghost use Rattle.reports.specs.Lines.{parted_text, parting_text};
ghost use Rattle.std.specs.Prelude.{Some};

use crate::word::Word;
use kinds::Steps;
use runs::Parting;
use std::fmt;

/// Where the positions of two runs part and by how much, or that they never do.
#[derive(Clone, Copy, PartialEq, Eq, Debug)]
pub struct PartingLine {
    /// What the runs are of.
    pub word: Word,
    /// Where they part.
    pub parting: Option<Parting>,
}

impl fmt::Display for PartingLine {
    ghost output = { λ line. Some (parting_text line.word line.parting) };

    fn fmt<W: fmt::Write>(&self, f: &mut fmt::Formatter<W>) -> fmt::Result {
        let Some(parting) = self.parting else {
            return write!(f, "The positions never part, as far as both logs go.");
        };
        let parted = PartedAfter {
            word: self.word,
            after: parting.after,
            first: parting.first,
            second: parting.second,
            gap: parting.gap(),
        };
        write!(f, "{parted}")
    }
}

/// After how many entries two positions part, where each then is, and a number of steps between them,
/// whatever these are.
#[derive(Clone, Copy, PartialEq, Eq, Debug)]
pub struct PartedAfter {
    /// What the entries are.
    pub word: Word,
    /// After how many of them.
    pub after: u32,
    /// The first position.
    pub first: Steps,
    /// The second position.
    pub second: Steps,
    /// By how many steps they part.
    pub gap: i64,
}

impl fmt::Display for PartedAfter {
    ghost output = { λ told. Some (parted_text told.word told.after told.first told.second told.gap) };

    fn fmt<W: fmt::Write>(&self, f: &mut fmt::Formatter<W>) -> fmt::Result {
        let PartedAfter {
            word,
            after,
            first,
            second,
            gap,
        } = *self;
        write!(
            f,
            "The positions part after {word} {after}: {first} and {second}, by {gap} steps"
        )
    }
}
