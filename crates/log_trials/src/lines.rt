//! Logs, good and bad.
use kinds::{Refusal, Steps};
use logs::{BadLine, read_log};
use numerals::{read_signed, read_unsigned};
use std::alloc::Global;

#[test]
fn numbers_are_read_as_written(rt: HostRuntime) {
    for (text, n) in [("0", 0), ("7", 7), ("10", 10), ("4294967295", 4294967295)] {
        assert_eq!(rt; read_unsigned(text.as_bytes()), Some(n));
    }
    for text in [
        "",
        "00",
        "01",
        "+1",
        "-1",
        " 1",
        "1 ",
        "1\r",
        "4294967296",
        "99999999999",
        "x",
    ] {
        assert_eq!(rt; read_unsigned(text.as_bytes()), None, "{}", text);
    }
    for (text, n) in [
        ("0", 0),
        ("-1", -1),
        ("2147483647", 2147483647),
        ("-2147483648", -2147483648),
    ] {
        assert_eq!(rt; read_signed(text.as_bytes()), Some(n));
    }
    for text in [
        "",
        "-",
        "-0",
        "--1",
        "+1",
        "-01",
        "2147483648",
        "-2147483649",
        "1-",
    ] {
        assert_eq!(rt; read_signed(text.as_bytes()), None, "{}", text);
    }
}

// The drives of a log added up, or its first bad line.
fn read(heap: Global, log: &[u8]) -> Result<i64, BadLine> {
    let drives: Vec<Steps> = read_log(heap, log)?;
    Ok(
        drives.iter().fold(
            0i64,
            |sum, drive| sum.wrapping_add(i64::from(i32::from(*drive))),
        ),
    )
}

// That this line is the first that says nothing.
fn bad(line: u64) -> Result<i64, BadLine> {
    Err(BadLine {
        line,
        refusal: Refusal::NotAForm,
    })
}

#[test]
fn logs_end_with_or_without_a_newline(rt: HostRuntime) {
    let heap = rt.alloc();
    assert_eq!(rt; read(heap, b""), Ok(0));
    assert_eq!(rt; read(heap, b"5"), Ok(5));
    assert_eq!(rt; read(heap, b"5\n-3\n"), Ok(2));
    assert_eq!(rt; read(heap, b"5\n-3"), Ok(2));
    assert_eq!(rt; read(heap, b"5\n\n"), bad(2));
    assert_eq!(rt; read(heap, b"\n"), bad(1));
    assert_eq!(rt; read(heap, b"5\r\n"), bad(1));
    assert_eq!(rt; read(heap, b"1\n2\n\xff\n4\n"), bad(3));
    assert_eq!(rt; read(heap, b"1\n2\n3\0\n"), bad(3));
}
