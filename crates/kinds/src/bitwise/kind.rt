//! W as a kind, bit by bit: its difference is its sum.
ghost use Rattle.std.specs.Prelude.{◌≡◌, refl};
ghost use Rattle.kinds.specs.Bits.{of_bits, ops as bit_ops, coding as bit_coding};
ghost use Rattle.kinds.specs.BitLaws.{laws as bit_laws, codes as bit_codes};

use super::W;
use crate::traits::{Kind, Ring};
use crate::words::word_at;

// The element of a number of 32 bits.
impl From<u32> for W {
    ghost from_gives = { λ bits x. x ≡ of_bits bits };

    fn from(bits: u32) -> W {
        W { bits }
    }
}

impl Kind for W {
    ghost ops = { bit_ops };

    ghost laws = { bit_laws };

    ghost coding = { bit_coding };

    ghost codes = { bit_codes };

    const WORDS: usize = 2;

    const LIMIT: u32 = 65536;

    ghost WORDS = { 2 };

    ghost LIMIT = { 65536 };

    ghost words_is = { refl };

    ghost limit_is = { refl };

    fn zero() -> W {
        W::from(0)
    }

    fn plus(&self, other: &W) -> W {
        W::from(self.bits ^ other.bits)
    }

    fn minus(&self, other: &W) -> W {
        self.plus(other)
    }

    fn from_words(words: &[u16]) -> W {
        W::from(u32::from(word_at(words, 0)) | u32::from(word_at(words, 1)) << 16)
    }

    fn word(&self, i: usize) -> u16 {
        match i {
            0 => (self.bits & 0xffff) as u16,
            1 => (self.bits >> 16) as u16,
            _ => 0,
        }
    }
}

impl Ring for W {
    fn one() -> W {
        W::from(u32::MAX)
    }

    fn times(&self, other: &W) -> W {
        W::from(self.bits & other.bits)
    }
}
