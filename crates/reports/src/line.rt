//! The lines of a report.
ghost use Rattle.reports.specs.Lines.{agreement_text, line_refused_text, refused_text, summary_text, tally_text, totals_text};
ghost use Rattle.std.specs.Prelude.{Some};

use crate::counted::Counted;
use crate::word::Word;
use kinds::Steps;
use logs::BadLine;
use std::fmt;

/// A line of a log that was refused.
#[derive(Clone, Copy, PartialEq, Eq, Debug)]
pub struct Refused<'a> {
    /// The log's name.
    pub name: &'a str,
    /// Which line, and why.
    pub bad: BadLine,
}

impl<'a> fmt::Display for Refused<'a> {
    ghost output = { λ refused. Some (refused_text refused.name.now refused.bad) };

    fn fmt<W: fmt::Write>(&self, f: &mut fmt::Formatter<W>) -> fmt::Result {
        let told = LineRefused {
            name: self.name,
            line: self.bad.line,
            number: self.bad.refusal.number(),
        };
        write!(f, "{told}")
    }
}

/// A line of a log that was refused with a number, whatever the number is.
#[derive(Clone, Copy, PartialEq, Eq, Debug)]
pub struct LineRefused<'a> {
    /// The log's name.
    pub name: &'a str,
    /// Which line.
    pub line: u64,
    /// The number of the refusal.
    pub number: u8,
}

impl<'a> fmt::Display for LineRefused<'a> {
    ghost output = { λ told. Some (line_refused_text told.name.now told.line told.number) };

    fn fmt<W: fmt::Write>(&self, f: &mut fmt::Formatter<W>) -> fmt::Result {
        let LineRefused { name, line, number } = *self;
        write!(f, "{name}: line {line} refused with {number}")
    }
}

/// How many drives a log has and where it ends, or how many entries a book has and their total.
#[derive(Clone, Copy, PartialEq, Eq, Debug)]
pub struct Summary<'a> {
    /// The log's name.
    pub name: &'a str,
    /// What is counted.
    pub word: Word,
    /// How many there are.
    pub count: u32,
    /// The position after the last drive, or the total of all entries.
    pub end: Steps,
}

impl<'a> fmt::Display for Summary<'a> {
    ghost output = { λ summary. Some (summary_text summary.word summary.name.now summary.count summary.end) };

    fn fmt<W: fmt::Write>(&self, f: &mut fmt::Formatter<W>) -> fmt::Result {
        let Summary {
            name,
            word,
            count,
            end,
        } = *self;
        match word {
            Word::Drive => write!(f, "{name}: {count} drives, position {end}"),
            Word::Entry => write!(f, "{name}: {count} entries, total {end}"),
        }
    }
}

/// How often a drive or an entry occurs.
#[derive(Clone, Copy, PartialEq, Eq, Debug)]
pub struct TallyLine {
    /// What is counted.
    pub word: Word,
    /// The drive or entry, and how often it occurs.
    pub counted: Counted,
}

impl fmt::Display for TallyLine {
    ghost output = { λ line. Some (tally_text line.word line.counted) };

    fn fmt<W: fmt::Write>(&self, f: &mut fmt::Formatter<W>) -> fmt::Result {
        let word = self.word;
        let Counted { entry, times } = self.counted;
        write!(f, "  {word} {entry}: {times} times")
    }
}

/// By how many steps the totals of two books part.
#[derive(Clone, Copy, PartialEq, Eq, Debug)]
pub struct TotalsGap(pub i64);

impl fmt::Display for TotalsGap {
    ghost output = { λ gap. Some (totals_text gap.0) };

    fn fmt<W: fmt::Write>(&self, f: &mut fmt::Formatter<W>) -> fmt::Result {
        let gap = self.0;
        write!(f, "The totals part by {gap} steps")
    }
}

/// Whether the books of two logs agree.
#[derive(Clone, Copy, PartialEq, Eq, Debug)]
pub struct Agreement<'a> {
    /// The name of the first log.
    pub first: &'a str,
    /// The name of the second log.
    pub second: &'a str,
    /// Whether their books agree.
    pub agree: bool,
}

impl<'a> fmt::Display for Agreement<'a> {
    ghost output = { λ it. Some (agreement_text it.first.now it.second.now it.agree) };

    fn fmt<W: fmt::Write>(&self, f: &mut fmt::Formatter<W>) -> fmt::Result {
        let first = self.first;
        let second = self.second;
        if self.agree {
            write!(f, "{first} and {second} agree entry for entry")
        } else {
            write!(f, "{first} and {second} do not agree entry for entry")
        }
    }
}
