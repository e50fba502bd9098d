//! Why there is no report.
ghost use Rattle.std.specs.Prelude.{◌≡◌};
ghost use Rattle.office.specs.Troubles.{trouble_of};
ghost use Rattle.office.specs.declared.troubles.Trouble.TheVariants.{Refused, Memory};

use kinds::Refusal;
use std::alloc::AllocError;
use text::{Fault, WordsError};

#[derive(Clone, Copy, PartialEq, Eq, Debug)]
pub enum Trouble {
    /// The first line, which begins at this offset, is no kind that is put together with a number of shares.
    Header { at: usize },
    /// The first line asks for more than 64 shares.
    ShareCount { at: usize },
    /// A word is no number of 16 bits.
    BadText(Fault),
    /// The words are refused.
    Refused(Refusal),
    /// There is too little memory.
    Memory,
}

// Each program has troubles and conversions of its own: one enum for both would let each program report the other's.
impl From<WordsError> for Trouble {
    ghost from_gives = { λ e r. r ≡ trouble_of e };

    fn from(error: WordsError) -> Trouble {
        match error {
            WordsError::Bad(fault) => Trouble::BadText(fault),
            WordsError::Memory => Trouble::Memory,
        }
    }
}

impl From<Refusal> for Trouble {
    ghost from_gives = { λ e r. r ≡ Refused e };

    fn from(refusal: Refusal) -> Trouble {
        Trouble::Refused(refusal)
    }
}

impl From<AllocError> for Trouble {
    ghost from_gives = { λ _ r. r ≡ Memory };

    fn from(_error: AllocError) -> Trouble {
        Trouble::Memory
    }
}
