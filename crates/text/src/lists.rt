//! All the tokens of a text as numbers.
ghost use Rattle.std.specs.Prelude.{◌≡◌};
ghost use Rattle.text.specs.Readings.{words_of, Gives};
ghost use Rattle.text.specs.Tokens.{to_come};
ghost use Rattle.text.specs.declared.lists.WordsError.TheVariants.{Bad, Memory};

use crate::faults::Fault;
use crate::tokens::Reader;
use std::alloc::{AllocFailed, Global};

/// Why there are no words: a token that is none, or too little memory.
#[derive(Clone, Copy, PartialEq, Eq, Debug)]
pub enum WordsError {
    Bad(Fault),
    Memory,
}

impl From<Fault> for WordsError {
    ghost from_gives = { λ f r. r ≡ Bad f };

    fn from(fault: Fault) -> WordsError {
        WordsError::Bad(fault)
    }
}

impl<T: Drop> From<AllocFailed<T>> for WordsError {
    ghost from_gives = { λ _ r. r ≡ Memory };

    fn from(_refused: AllocFailed<T>) -> WordsError {
        WordsError::Memory
    }
}

/// The tokens still to come, as numbers of 16 bits.
pub fn words(reader: Reader, heap: Global) -> Result<Vec<u16>, WordsError>
    ensures { Gives (words_of (to_come reader.entry)) result }
{
    let mut all = Vec::new(heap);
    for token in reader {
        let number = token.read(u64::from(u16::MAX))?;
        all.push(number as u16)?;
    }
    Ok(all)
}
