//! Products of elements.
ghost use Rattle.std.specs.Prelude.{◌≡◌, ◌+◌, ◌%◌, ◌<◌, ◌≤◌, length};
ghost use Rattle.poly.specs.Elements.{poly, ops};
ghost use Rattle.poly.specs.Lanes.{folded_at};
ghost use Rattle.poly.specs.Modulus.{modulus};
ghost use Rattle.poly.specs.Quotient.{Quotient};

use super::Poly;
use crate::lanes::{PRODUCT, put_product};
use crate::served::Served;
use kinds::Kind;

impl<const N: usize, const M: u16> Poly<N, M>
where
    Self: Served<N, M>,
{
    /// The product of two elements: that of the polynomials, exponents reduced modulo N + 1, then the coefficient of X^N
    /// subtracted from every other. So elements are the polynomials modulo 1 + X + ... + X^N and M.
    pub fn product(&self, other: &Self) -> Self
        ensures value { result ≡ (ops N M).times self.now other.now }
        ensures quotient { Quotient N M }
    {
        self.multiplied(other)
    }

    // Apart from `product`: public functions stay thin, so that an edit of one is refused at its promise.
    fn multiplied(&self, other: &Self) -> Self
        ensures value { result ≡ (ops N M).times self.now other.now }
        ensures quotient { Quotient N M }
    {
        // Of fixed length: products are called from C, with no allocator.
        let mut sums = [0; PRODUCT];
        put_product(&self.coeffs, &other.coeffs, &mut sums);
        Self::folded(&sums)
    }

    // The element that a product is reduced to, from its coefficients modulo 2^16: X^(N + 1 + i) counts as X^i, and the
    // coefficient of X^N is subtracted.
    fn folded(sums: &[u16]) -> Self
        requires { N + N + 1 ≤ length sums.now }
        ensures { result ≡ poly N M (folded_at N M sums.now) }
    {
        let high = &sums[N + 1..];
        let top = Self::LIMIT - u32::from(sums[N]) % Self::LIMIT;
        Self::from_fn(|i| u32::from(sums[i].wrapping_add(high[i])) + top)
    }
}
