//! Polynomials as a kind.
ghost use Rattle.std.specs.Prelude.{refl};
ghost use Rattle.poly.specs.Elements.{ops as poly_ops, coding as poly_coding};
ghost use Rattle.poly.specs.Laws.{laws as poly_laws, codes as poly_codes};
ghost use Rattle.poly.specs.Modulus.{modulus};

use super::Poly;
use crate::served::Served;
use kinds::words::word_at;
use kinds::{Kind, Ring};

// Each method is a line over a proved function, so that an edit of it is refused at its promise.
impl<const N: usize, const M: u16> Kind for Poly<N, M> {
    ghost ops = { poly_ops N M };

    ghost laws = { poly_laws N M };

    ghost coding = { poly_coding N M };

    ghost codes = { poly_codes N M };

    const WORDS: usize = N;

    // The greater of M and 1, without `max`, which is no `const fn`.
    const LIMIT: u32 = if M == 0 { 1 } else { M as u32 };

    ghost WORDS = { N };

    ghost LIMIT = { modulus M };

    ghost words_is = { refl };

    ghost limit_is = { refl };

    fn zero() -> Self {
        Self::reduced(&[])
    }

    fn plus(&self, other: &Self) -> Self {
        self.sum(other)
    }

    fn minus(&self, other: &Self) -> Self {
        self.difference(other)
    }

    fn from_words(words: &[u16]) -> Self {
        Self::reduced(words)
    }

    fn word(&self, i: usize) -> u16 {
        word_at(&self.coeffs, i)
    }
}

impl<const N: usize, const M: u16> Ring for Poly<N, M>
where
    Self: Served<N, M>,
{
    fn one() -> Self {
        Self::reduced(&[1])
    }

    fn times(&self, other: &Self) -> Self {
        self.product(other)
    }
}
