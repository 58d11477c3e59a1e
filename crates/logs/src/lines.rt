//! The lines of a log.
ghost use Rattle.logs.specs.Logs.{lines};
ghost use Rattle.std.specs.Iterator.{YieldsFirstBy, item_count};
ghost use Rattle.std.specs.Prelude.{◌≡◌, ◌==◌, [], ◌∷◌, MatchOption, position};

/// The lines of a log that are left, each without its newline.
// not `split_inclusive`: rattle takes no invariant of a `for` over it in a generic function
#[derive(Drop)]
pub(crate) struct Lines<'a>(pub(crate) &'a [u8]);

impl<'a> Iterator for Lines<'a> {
    type Item = &'a [u8];

    ghost next_gives = { YieldsFirstBy (λ line. line.now) (λ left. lines left.0.now) };

    ghost remaining = { item_count (λ left. lines left.0.now) };

    fn next(&mut self) -> Option<&'a [u8]> {
        let (line, left) = split_line(self.0)?;
        self.0 = left;
        Some(line)
    }
}

// The first line and what is left behind its newline, where there is a line.
#[tactic(auto, using(crate::proofs::Splitting::ended_line, crate::proofs::Splitting::open_line))]
fn split_line(log: &[u8]) -> Option<(&[u8], &[u8])>
    ensures { MatchOption result (lines log.now ≡ []) (λ cut. lines log.now ≡ cut.0.now ∷ lines cut.1.now) }
{
    match newline(log) {
        Some(end) => Some((&log[..end], &log[end + 1..])),
        None if log.is_empty() => None,
        None => Some((log, &[])),
    }
}

// The place of the first newline.
fn newline(log: &[u8]) -> Option<usize>
    ensures { result ≡ position (λ byte. byte == 10) log.now }
{
    log.iter().position(|byte| *byte == b'\n')
}
