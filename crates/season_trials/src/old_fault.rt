//! The old fault found: a restore that worked from a rounded amount.
use kinds::Steps;
use ledgers::agrees;
use logs::read_log;
use season_logs::LogLine;
use seasons::{replay_log, steps_apart};
use sheets::ClosedSheet;
use std::alloc::Global;

// A unit set to heating only.
const HEATING: &[u8] = b"243\n7\n-4\n";

// The same drives with two changeovers that are parked and restored.
const RIGHT: &[u8] = b"243\npark\nrestore\n7\npark\n12\n-12\nrestore\n-4\n";

// The same drives on a controller that kept the amount as a percentage of a full travel of 480
// steps, rounded down: 243 became 50 percent and 240, and 247 became 51 percent and 244.
const ROUNDED: &[u8] = b"243\n-243\n240\n7\n-247\n244\n-4\n";

// The book of a log and its total.
fn book_of(heap: Global, log: &[u8]) -> Option<(ClosedSheet<Steps>, Steps)> {
    let lines: Vec<LogLine> = read_log(heap, log).ok()?;
    let season = replay_log(heap, 7, lines.as_slice()).ok()?;
    Some((season.book, season.total))
}

// By how many steps the totals of two logs part, and whether their books agree.
fn compared(heap: Global, first: &[u8], second: &[u8]) -> Option<(i64, bool)> {
    let (a, total) = book_of(heap, first)?;
    let (b, other) = book_of(heap, second)?;
    Some((steps_apart(total, other), agrees(&a, &b)))
}

#[test]
fn a_right_restore_loses_no_step(rt: HostRuntime) {
    assert_eq!(rt; compared(rt.alloc(), RIGHT, HEATING), Some((0, false)));
}

#[test]
fn a_rounded_restore_is_found(rt: HostRuntime) {
    assert_eq!(rt; compared(rt.alloc(), ROUNDED, HEATING), Some((-6, false)));
}

#[test]
fn a_copy_agrees_entry_for_entry(rt: HostRuntime) {
    let heap = rt.alloc();
    assert_eq!(rt; compared(heap, RIGHT, RIGHT), Some((0, true)));
    assert_eq!(rt; compared(heap, ROUNDED, RIGHT), Some((-6, false)));
}
