//! A few cases; many stand in the trials of the layers above.
use crate::chunks::{read_chunk, write_chunk};
use crate::rank::ones_before;
use crate::width::Width;

#[test]
fn chunks_are_read_where_they_stand(rt: HostRuntime) {
    let words = [0x000ae950, 0x00000445];
    for (t, chunk) in [
        (0, 0),
        (1, 5),
        (2, 9),
        (3, 14),
        (4, 10),
        (5, 0),
        (8, 5),
        (10, 4),
        (15, 0),
        (16, 0),
    ] {
        assert_eq!(rt; read_chunk(&words, Width::Four, t), chunk);
    }
    assert_eq!(rt; read_chunk(&words, Width::Sixteen, 1), 0x000a);
    assert_eq!(rt; read_chunk(&words, Width::One, 34), 1);
}

#[test]
fn a_chunk_is_put_and_no_other(rt: HostRuntime) {
    let mut words = [0xffffffff, 0];
    assert_eq!(rt; write_chunk(&mut words, Width::Eight, 2, 0x123), true);
    assert_eq!(rt; write_chunk(&mut words, Width::Two, 17, 2), true);
    assert_eq!(rt; write_chunk(&mut words, Width::Sixteen, 4, 1), false);
    assert_eq!(rt; words, [0xff23ffff, 8]);
}

#[test]
fn ones_are_counted_by_the_directory(rt: HostRuntime) {
    let bits = [0xffffffffu32; 9];
    let directory = [0, 256];
    for p in [0, 1, 31, 32, 33, 255, 256, 257, 288] {
        assert_eq!(rt; ones_before(&bits, &directory, p as usize), p);
    }
}
