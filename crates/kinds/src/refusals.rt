//! Why something is refused. Each case has a number, which offices and operators know it by.
ghost use Rattle.std.specs.Prelude.{◌≡◌, Some};
ghost use Rattle.kinds.specs.Refusals.{number, words, refusal_text};

use std::fmt;

#[derive(Clone, Copy, PartialEq, Eq, Debug)]
pub enum Refusal {
    /// The count of words does not match.
    WordCount,
    /// A coefficient is too large: its element in the list, and its exponent in that.
    CoefficientTooLarge { element: usize, exponent: usize },
    /// The number of shares is outside 2 to 8.
    ShareCount,
    /// The engine already had a cell.
    EngineNotEmpty,
    NoSuchHolding,
    /// 64 holdings exist.
    TableFull,
    NoSuchPosition,
    /// A buffer for words or centred numbers has the wrong length.
    BufferLength,
    /// Fewer free cells than the whole call needs.
    TooFewCells,
    /// Less tape than the whole call needs.
    TooLittleTape,
    NoSecretLeft,
    NoPublicLeft,
    MaskedValueNotInvertible,
    /// An unwritten cell, or a wrong count of cells.
    NoSuchCell,
    NoFreeCell,
    ListAtEnd,
    NotInvertible,
}

impl Refusal {
    /// The number that the refusal is known by: a view of it, for the C interface and for what is printed.
    pub fn number(&self) -> u8
        ensures { result ≡ (number self.now).0 }
    {
        match self {
            Refusal::WordCount => 1,
            Refusal::CoefficientTooLarge { .. } => 2,
            Refusal::ShareCount => 3,
            Refusal::EngineNotEmpty => 4,
            Refusal::NoSuchHolding => 5,
            Refusal::TableFull => 6,
            Refusal::NoSuchPosition => 7,
            Refusal::BufferLength => 8,
            Refusal::TooFewCells => 9,
            Refusal::TooLittleTape => 10,
            Refusal::NoSecretLeft => 11,
            Refusal::NoPublicLeft => 12,
            Refusal::MaskedValueNotInvertible => 13,
            Refusal::NoSuchCell => 14,
            Refusal::NoFreeCell => 15,
            Refusal::ListAtEnd => 16,
            Refusal::NotInvertible => 17,
        }
    }

    // What went wrong, in words.
    fn text(&self) -> &'static str
        ensures { result.now ≡ words self.now }
    {
        match self {
            Refusal::WordCount => "the count of words does not match",
            Refusal::CoefficientTooLarge { .. } => "a coefficient is too large",
            Refusal::ShareCount => "the number of shares is outside 2 to 8",
            Refusal::EngineNotEmpty => "the engine already had a cell",
            Refusal::NoSuchHolding => "no such holding",
            Refusal::TableFull => "64 holdings exist",
            Refusal::NoSuchPosition => "no such position",
            Refusal::BufferLength => "the buffer has the wrong length",
            Refusal::TooFewCells => "fewer free cells than the whole call needs",
            Refusal::TooLittleTape => "less tape than the whole call needs",
            Refusal::NoSecretLeft => "no secret left",
            Refusal::NoPublicLeft => "no public left",
            Refusal::MaskedValueNotInvertible => "the masked value has no inverse",
            Refusal::NoSuchCell => "an unwritten cell, or a wrong count of cells",
            Refusal::NoFreeCell => "no free cell",
            Refusal::ListAtEnd => "the list is at its end",
            Refusal::NotInvertible => "no inverse",
        }
    }
}

// The number, what went wrong, and the values that come along.
impl fmt::Display for Refusal {
    ghost output = { λ e. Some (refusal_text e) };

    fn fmt<W: fmt::Write>(&self, f: &mut fmt::Formatter<W>) -> fmt::Result {
        let number = self.number();
        let text = self.text();
        match self {
            Refusal::CoefficientTooLarge { element, exponent } => {
                write!(
                    f,
                    "{number}: {text}: element {element} (counted from 0), exponent {exponent}"
                )
            }
            _ => write!(f, "{number}: {text}"),
        }
    }
}
