//! What is wrong, in words for the person who typed the input.
ghost use Rattle.std.specs.Prelude.{Some};
ghost use Rattle.office.specs.Explaining.{message, offset};

use crate::troubles::Trouble;
use programs::Placed;
use std::fmt;

/// A trouble, with the input that it comes from.
pub type Explained<'a> = programs::Explained<'a, Trouble>;

// Messages and offsets of its own, as each program has troubles of its own.
impl fmt::Display for Trouble {
    ghost output = { λ t. Some (message t) };

    fn fmt<W: fmt::Write>(&self, f: &mut fmt::Formatter<W>) -> fmt::Result {
        match self {
            Trouble::Header { .. } => write!(
                f,
                "expected a known kind and a number of shares, as in `Q 509 11 3`, `T 701 3` or `W 3`"
            ),
            Trouble::ShareCount { .. } => write!(f, "more than 64 shares"),
            Trouble::BadText(fault) => fault.problem.fmt(f),
            Trouble::Refused(refusal) => write!(f, "refused with {refusal}"),
            Trouble::Memory => write!(f, "out of memory"),
        }
    }
}

impl Placed for Trouble {
    ghost offset = { offset };

    fn offset(&self) -> Option<usize> {
        match self {
            Trouble::Header { at } | Trouble::ShareCount { at } => Some(*at),
            Trouble::BadText(fault) => Some(fault.at),
            Trouble::Refused(_) | Trouble::Memory => None,
        }
    }
}
