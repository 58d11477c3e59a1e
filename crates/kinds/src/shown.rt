//! How a refusal is written.
ghost use Rattle.kinds.specs.Refusals.{number};
ghost use Rattle.std.specs.Prelude.{◌++◌, Some, codes, decimal};

use crate::refusal::Refusal;
use std::error::Error;
use std::fmt;

impl fmt::Display for Refusal {
    ghost output = { λ x. Some (codes "refusal " ++ decimal (number x)) };

    fn fmt<W: fmt::Write>(&self, f: &mut fmt::Formatter<W>) -> fmt::Result {
        let n = self.number();
        write!(f, "refusal {n}")
    }
}

impl Error for Refusal {}
