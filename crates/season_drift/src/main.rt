//! Replays the logs of one valve as books and says by how many steps their totals part.
#![tactic(auto)]

use anyhow::anyhow;
use kinds::{Refusal, Steps};
use ledgers::{Replayed, agrees};
use logs::{BadLine, read_log};
use reports::{Agreement, PartingLine, Refused, Summary, TallyLine, TotalsGap, Word, tally_with};
use runs::{Run, first_parting};
use season_logs::LogLine;
use seasons::{replay_log, steps_apart};
use sheets::{Answer, ClosedSheet};
use std::{env, fs};
use tallies::blank_records;

// The sample season, in the folder that the program is run in: one unit set to auto changeover, set
// to heating only, and the fitter's own copy of the first log.
const SAMPLE: [&str; 3] = ["auto.txt", "heating.txt", "fitter.txt"];

// The unit number of the books.
const UNIT: u32 = 1;

// What a line of a log was answered.
type Reply = Result<Answer<Steps>, Refusal>;

// The book of a log, and what is asked of its lines later. The lines and what each was answered are not
// kept: they take five times the memory of the book.
#[derive(Drop)]
struct Season {
    book: ClosedSheet<Steps>,
    total: Steps,
    has_drives_alone: bool,
}

fn main(rt: HostRuntime) -> anyhow::Result<()> {
    run(&rt)
}

// Beside the like of `drift`, which takes other arguments and says so in other words.
fn run(rt: &HostRuntime) -> anyhow::Result<()> {
    let mut args = env::args(rt)?;
    let _ = args.next();
    let Some(first) = args.next() else {
        return compare(rt, SAMPLE[0], SAMPLE[1], Some(SAMPLE[2]));
    };
    match (args.next(), args.next(), args.next()) {
        (Some(second), None, None) => compare(rt, first.as_str(), second.as_str(), None),
        (Some(second), Some(copy), None) => {
            compare(rt, first.as_str(), second.as_str(), Some(copy.as_str()))
        }
        _ => Err(anyhow!("give two logs, or a copy of the first besides, or none for the sample")),
    }
}

fn compare(rt: &HostRuntime, first: &str, second: &str, copy: Option<&str>) -> anyhow::Result<()> {
    let one = season_of(rt, first)?;
    let other = season_of(rt, second)?;
    let (Some(a), Some(b)) = (one, other) else {
        return Err(anyhow!("a log was refused"));
    };
    show_gap(rt, &a, &b)?;
    let Some(copy) = copy else {
        return Ok(());
    };
    let Some(c) = season_of(rt, copy)? else {
        return Err(anyhow!("a log was refused"));
    };
    rt.println(Agreement {
        first,
        second: copy,
        agree: agrees(&a.book, &c.book),
    })?;
    Ok(())
}

// Reads a log, replays it and prints its book, or which line of it was refused. What is not needed
// further is let go before more memory is asked for.
fn season_of(rt: &HostRuntime, name: &str) -> anyhow::Result<Option<Season>> {
    match lines_of(rt, name)? {
        Ok(lines) => {
            let (replayed, has_drives_alone) = replayed(rt, lines)?;
            let Replayed {
                book,
                total,
                answers,
            } = replayed;
            show_refused(rt, name, answers)?;
            show_book(rt, name, &book, total)?;
            Ok(Some(Season {
                book,
                total,
                has_drives_alone,
            }))
        }
        Err(bad) => {
            rt.println(Refused { name, bad })?;
            Ok(None)
        }
    }
}

// The lines of a log, whose bytes are let go.
fn lines_of(rt: &HostRuntime, name: &str) -> anyhow::Result<Result<Vec<LogLine>, BadLine>> {
    let bytes = fs::read(rt, name)?;
    Ok(read_log(rt.alloc(), bytes.as_slice()))
}

// Replays the lines of a log, which are let go, and tells whether they are drives alone and none of
// the words of a changeover.
fn replayed(rt: &HostRuntime, lines: Vec<LogLine>) -> anyhow::Result<(Replayed<Steps>, bool)> {
    let replayed = replay_log(rt.alloc(), UNIT, lines.as_slice())?;
    let has_drives_alone = lines.iter().all(|line| matches!(line, LogLine::Drive(_)));
    Ok((replayed, has_drives_alone))
}

// Prints the lines that the book refused, and lets what was answered go.
fn show_refused(rt: &HostRuntime, name: &str, replies: Vec<Reply>) -> anyhow::Result<()> {
    for (before, answer) in replies.iter().enumerate() {
        if let Err(refusal) = *answer {
            let line = before as u64 + 1;
            let bad = BadLine { line, refusal };
            rt.println(Refused { name, bad })?;
        }
    }
    Ok(())
}

// Prints how many entries a book has, their total, and how often each entry occurs.
fn show_book(
    rt: &HostRuntime,
    name: &str,
    book: &ClosedSheet<Steps>,
    end: Steps,
) -> anyhow::Result<()> {
    let word = Word::Entry;
    rt.println(Summary {
        name,
        word,
        count: book.count(),
        end,
    })?;
    let table = blank_records(rt.alloc(), book)?;
    for &counted in tally_with(rt.alloc(), book, table)?.iter() {
        rt.println(TallyLine { word, counted })?;
    }
    Ok(())
}

// Prints by how many steps the totals of two books part and, where both logs have drives alone, after
// which entry the positions first do.
fn show_gap(rt: &HostRuntime, a: &Season, b: &Season) -> anyhow::Result<()> {
    rt.println(TotalsGap(steps_apart(a.total, b.total)))?;
    if a.has_drives_alone && b.has_drives_alone {
        rt.println(PartingLine {
            word: Word::Entry,
            parting: first_parting(&a.book, &b.book),
        })?;
    }
    Ok(())
}
