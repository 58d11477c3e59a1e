//! Where two runs of steps part.
ghost use Rattle.std.specs.Prelude.{◌≡◌, ◌-ℤ◌};

use kinds::Steps;

/// The first number of entries after which two runs of steps stand at different positions.
#[derive(Clone, Copy, PartialEq, Eq, Debug)]
pub struct Parting {
    /// After how many entries.
    pub after: u32,
    /// The position of the first run there.
    pub first: Steps,
    /// The position of the second run there.
    pub second: Steps,
}

impl Parting {
    /// By how many steps the first run stands above the second, counted exactly.
    pub fn gap(self) -> i64
        ensures { result ≡ self.first.value -ℤ self.second.value }
    {
        steps_apart(self.first, self.second)
    }
}

/// By how many steps one position or total stands above another, counted exactly.
pub fn steps_apart(first: Steps, second: Steps) -> i64
    ensures { result ≡ first.value -ℤ second.value }
{
    i64::from(i32::from(first)) - i64::from(i32::from(second))
}
