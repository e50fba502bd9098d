//! Elements made coefficient by coefficient.
ghost use Rattle.std.specs.Prelude.{◌≡◌, ℕ, ◌%◌, ◌<◌};
ghost use Rattle.poly.specs.Elements.{poly, sum_at, difference_at};
ghost use Rattle.poly.specs.Lists.{at};
ghost use Rattle.poly.specs.Modulus.{modulus};

use super::Poly;
use kinds::Kind;
use kinds::words::word_at;
use std::array;

impl<const N: usize, const M: u16> Poly<N, M> {
    // The element whose coefficient of X^i is f(i), taken modulo M: where f answers as d does, the polynomial of d.
    pub(super) fn from_fn<F: Fn(usize) -> u32>(f: F) -> Self
        requires { (i : ℕ) → i < N → F.pre f i }
        ensures { (d : ℕ → ℕ) → ((i c : ℕ) → i < N → F.post f i c → c ≡ d i) → result ≡ poly N M d }
    {
        Poly {
            coeffs: array::from_fn(
                |i| -> u16
                    requires { F.pre f i }
                    ensures { (c : ℕ) × F.post f i c × (result ≡ c % modulus M) }
                { (f(i) % Self::LIMIT) as u16 },
            ),
        }
    }

    // The closures here read slices at the place that they are asked for; one that captured a struct whose size is a const
    // parameter would need clauses of its own.
    pub(super) fn sum(&self, other: &Self) -> Self
        ensures { result ≡ poly N M (sum_at self.now other.now) }
    {
        let (x, y) = (self.coeffs.as_slice(), other.coeffs.as_slice());
        Self::from_fn(|i| u32::from(x[i]) + u32::from(y[i]))
    }

    pub(super) fn difference(&self, other: &Self) -> Self
        ensures { result ≡ poly N M (difference_at self.now other.now) }
    {
        let m = Self::LIMIT;
        let (x, y) = (self.coeffs.as_slice(), other.coeffs.as_slice());
        Self::from_fn(|i| u32::from(x[i]) + (m - u32::from(y[i])))
    }

    // The element with these words as coefficients, each taken modulo M; missing ones count as 0.
    pub(super) fn reduced(words: &[u16]) -> Self
        ensures { result ≡ poly N M (at words.now) }
    {
        Self::from_fn(|i| u32::from(word_at(words, i)))
    }
}
