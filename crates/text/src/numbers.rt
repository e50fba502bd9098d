//! Tokens as decimal numbers.
ghost use Rattle.std.specs.Prelude.{◌≡◌, ◌+◌, min, true, false, MatchOption};
ghost use Rattle.text.specs.Numbers.{is_number, value_of, reading};
ghost use Rattle.text.specs.Readings.{reading_of};
ghost use Rattle.text.specs.Tokens.{word};

use crate::faults::{Fault, Problem};
use crate::tokens::Token;

// The number that `text` writes, cut off right above `most`; `None` where it writes none.
// Not `str::parse`: that takes a `+` too. Cut off at a bound that the caller knows, numbers stay short: cut off at `u128::MAX`
// a digit takes up to 1.6 times as long.
fn decimal(text: &[u8], most: u64) -> Option<u128>
    ensures { MatchOption result (is_number text.now ≡ false)
        (λ v. (is_number text.now ≡ true) × (v ≡ min (value_of text.now) (most + 1))) }
{
    if text.is_empty() {
        return None;
    }
    let cut = u128::from(most) + 1;
    let mut value: u128 = 0;
    // A loop: `try_fold` would put the same two lines into a closure.
    for b in text {
        let digit = char::from(*b).to_digit(10)?;
        value = (10 * value + u128::from(digit)).min(cut);
    }
    Some(value)
}

impl Token<'_> {
    /// The number that the token writes, where it writes one of at most `most`.
    pub fn number(&self, most: u64) -> Result<u64, Problem>
        ensures { result ≡ reading self.now.text.now most }
    {
        match decimal(self.text, most) {
            None => Err(Problem::NotANumber),
            Some(value) if value <= u128::from(most) => Ok(value as u64),
            Some(_) => Err(Problem::TooLarge { most }),
        }
    }

    /// The same, with the token's offset where it writes no such number.
    #[tactic(auto, using(crate::proofs::Placing::placed_is))]
    pub fn read(&self, most: u64) -> Result<u64, Fault>
        ensures { result ≡ reading_of (word self.now) most }
    {
        let at = self.at;
        self.number(most).map_err(|problem| Fault { at, problem })
    }
}
