//! Lines and columns.
ghost use Rattle.std.specs.Prelude.{◌≡◌, ◌-◌, ◌^◌, min, Some};
ghost use Rattle.text.specs.Places.{feeds, since, line_of, column_of};
ghost use Rattle.text.specs.Shown.{place_text};

use std::fmt;

/// A line and a column, both counted from 1.
#[derive(Clone, Copy, PartialEq, Eq, Debug)]
pub struct Place {
    pub line: usize,
    pub column: usize,
}

// How many line feeds there are.
fn feeds(text: &[u8]) -> usize
    ensures { result ≡ feeds text.now }
{
    text.iter().filter(|b| **b == b'\n').count()
}

// How many bytes follow the last line feed, or all where there is none.
#[tactic(auto, using(crate::proofs::Cutting::taken_len))]
fn since(text: &[u8]) -> usize
    ensures { result ≡ since text.now }
{
    text.iter().rev().take_while(|b| **b != b'\n').count()
}

impl Place {
    /// The place of offset `at`, or of the end where `at` lies past it.
    pub fn of(text: &[u8], at: usize) -> Place
        ensures line { result.line ≡ min (line_of text.now at) (2 ^ 64 - 1) }
        ensures column { result.column ≡ min (column_of text.now at) (2 ^ 64 - 1) }
    {
        let before = &text[..at.min(text.len())];
        Place {
            line: feeds(before).saturating_add(1),
            column: since(before).saturating_add(1),
        }
    }
}

impl fmt::Display for Place {
    ghost output = { λ p. Some (place_text p) };

    fn fmt<W: fmt::Write>(&self, f: &mut fmt::Formatter<W>) -> fmt::Result {
        let Place { line, column } = self;
        write!(f, "line {line}, column {column}")
    }
}
