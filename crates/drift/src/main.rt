//! Compares two logs of one valve, drive by drive, and says where their positions part.
#![tactic(auto)]

use anyhow::anyhow;
use kinds::Steps;
use logs::read_log;
use reports::{PartingLine, Refused, Summary, TallyLine, Word, tally_with};
use runs::{Run, first_parting, position};
use std::{env, fs};
use tallies::blank_records;

// The sample season, in the folder that the program is run in: one unit, set to auto changeover and
// set to heating only.
const SAMPLE: [&str; 2] = ["auto.txt", "heating.txt"];

fn main(rt: HostRuntime) -> anyhow::Result<()> {
    run(&rt)
}

// Beside the like of `season_drift`, which takes other arguments and says so in other words.
fn run(rt: &HostRuntime) -> anyhow::Result<()> {
    let mut args = env::args(rt)?;
    let _ = args.next();
    let Some(first) = args.next() else {
        return compare(rt, SAMPLE[0], SAMPLE[1]);
    };
    match (args.next(), args.next()) {
        (Some(second), None) => compare(rt, first.as_str(), second.as_str()),
        _ => Err(anyhow!("give two logs, or none for the sample season")),
    }
}

// Compares two logs and prints where they part, or that they never do.
fn compare(rt: &HostRuntime, first: &str, second: &str) -> anyhow::Result<()> {
    let one = drives_of(rt, first)?;
    let other = drives_of(rt, second)?;
    let (Some(a), Some(b)) = (one, other) else {
        return Err(anyhow!("a log was refused"));
    };
    rt.println(PartingLine {
        word: Word::Drive,
        parting: first_parting(&a.as_slice(), &b.as_slice()),
    })?;
    Ok(())
}

// Reads a log and prints what is in it, or which line of it was refused. What it has in common with
// `season_of` of `season_drift` reads a file and prints, of which a library could promise nothing.
fn drives_of(rt: &HostRuntime, name: &str) -> anyhow::Result<Option<Vec<Steps>>> {
    let bytes = fs::read(rt, name)?;
    match read_log(rt.alloc(), bytes.as_slice()) {
        Ok(drives) => {
            show_log(rt, name, drives.as_slice())?;
            Ok(Some(drives))
        }
        Err(bad) => {
            rt.println(Refused { name, bad })?;
            Ok(None)
        }
    }
}

// Prints how many drives a log has, where it ends, and how often each drive occurs.
fn show_log(rt: &HostRuntime, name: &str, drives: &[Steps]) -> anyhow::Result<()> {
    let word = Word::Drive;
    let count = drives.count();
    let end = position(&drives, count)?;
    rt.println(Summary {
        name,
        word,
        count,
        end,
    })?;
    let table = blank_records(rt.alloc(), &drives)?;
    for &counted in tally_with(rt.alloc(), &drives, table)?.iter() {
        rt.println(TallyLine { word, counted })?;
    }
    Ok(())
}
