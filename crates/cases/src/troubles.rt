//! Why there are no results.
ghost use Rattle.std.specs.Prelude.{◌≡◌};
ghost use Rattle.cases.specs.Troubles.{trouble_of};
ghost use Rattle.cases.specs.declared.troubles.Trouble.TheVariants.{Memory};

use kinds::Refusal;
use std::alloc::AllocError;
use text::{Fault, WordsError};

#[derive(Clone, Copy, PartialEq, Eq, Debug)]
pub enum Trouble {
    /// The token at this offset names no kind that is put together.
    UnknownKind { at: usize },
    /// The token at this offset names no operation, or is a kind with nothing behind it.
    UnknownOperation { at: usize },
    /// A word is no number of 16 bits.
    BadText(Fault),
    /// The words of the case that begins at this offset are refused.
    Refused { at: usize, refusal: Refusal },
    /// There is too little memory.
    Memory,
}

// Each program has troubles and conversions of its own: one enum for both would let each program report the other's.
impl From<WordsError> for Trouble {
    ghost from_gives = { λ e r. r ≡ trouble_of e };

    fn from(error: WordsError) -> Trouble {
        match error {
            WordsError::Bad(fault) => Trouble::BadText(fault),
            WordsError::Memory => Trouble::Memory,
        }
    }
}

impl From<AllocError> for Trouble {
    ghost from_gives = { λ _ r. r ≡ Memory };

    fn from(_error: AllocError) -> Trouble {
        Trouble::Memory
    }
}
