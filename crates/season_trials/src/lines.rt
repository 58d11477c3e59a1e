//! Logs, good and bad.
use kinds::Refusal;
use logs::{BadLine, read_log};
use season_logs::LogLine;
use std::alloc::Global;

// What a line weighs: a drive its steps, a parking a thousand, a restoring a million.
fn weight(line: LogLine) -> i64 {
    match line {
        LogLine::Drive(steps) => i64::from(i32::from(steps)),
        LogLine::Park => 1000,
        LogLine::Restore => 1_000_000,
    }
}

// This, `bad` and the first test are as in `log_trials`: each instance of `read_log` has its tests, and
// a library for these few lines would be longer.

// The lines of a log added up, or its first bad line.
fn read(heap: Global, log: &[u8]) -> Result<i64, BadLine> {
    let lines: Vec<LogLine> = read_log(heap, log)?;
    Ok(
        lines
            .iter()
            .fold(0i64, |sum, line| sum.wrapping_add(weight(*line))),
    )
}

// That this line is the first that says nothing.
fn bad(line: u64) -> Result<i64, BadLine> {
    Err(BadLine {
        line,
        refusal: Refusal::NotAForm,
    })
}

#[test]
fn logs_end_with_or_without_a_newline(rt: HostRuntime) {
    let heap = rt.alloc();
    assert_eq!(rt; read(heap, b""), Ok(0));
    assert_eq!(rt; read(heap, b"5"), Ok(5));
    assert_eq!(rt; read(heap, b"5\n-3\n"), Ok(2));
    assert_eq!(rt; read(heap, b"5\n-3"), Ok(2));
    assert_eq!(rt; read(heap, b"5\n\n"), bad(2));
    assert_eq!(rt; read(heap, b"\n"), bad(1));
    assert_eq!(rt; read(heap, b"5\r\n"), bad(1));
    assert_eq!(rt; read(heap, b"1\n2\n\xff\n4\n"), bad(3));
    assert_eq!(rt; read(heap, b"1\n2\n3\0\n"), bad(3));
}

#[test]
fn words_stand_alone(rt: HostRuntime) {
    let heap = rt.alloc();
    assert_eq!(rt; read(heap, b"5\npark\n-3\nrestore"), Ok(1_001_002));
    assert_eq!(rt; read(heap, b"park\npark\n"), Ok(2000));
    assert_eq!(rt; read(heap, b"1\npark 1\n"), bad(2));
    assert_eq!(rt; read(heap, b"Park\n"), bad(1));
    assert_eq!(rt; read(heap, b"par\n"), bad(1));
    assert_eq!(rt; read(heap, b"1\n2\nrestored\n"), bad(3));
}
