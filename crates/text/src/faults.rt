//! What is wrong with a token, and where.
ghost use Rattle.std.specs.Prelude.{Some};
ghost use Rattle.text.specs.Shown.{problem_text};

use std::fmt;

/// What is wrong with a token.
#[derive(Clone, Copy, PartialEq, Eq, Debug)]
pub enum Problem {
    NotANumber,
    TooLarge { most: u64 },
}

/// A problem with the token at offset `at`.
#[derive(Clone, Copy, PartialEq, Eq, Debug)]
pub struct Fault {
    pub at: usize,
    pub problem: Problem,
}

impl fmt::Display for Problem {
    ghost output = { λ p. Some (problem_text p) };

    fn fmt<W: fmt::Write>(&self, f: &mut fmt::Formatter<W>) -> fmt::Result {
        match self {
            Problem::NotANumber => write!(f, "not a decimal number"),
            Problem::TooLarge { most } => write!(f, "larger than {most}"),
        }
    }
}
