//! The sizes that are served: the bounds that a product needs, as a bound on a type.
ghost use Rattle.std.specs.Prelude.{◌≡◌, true};
ghost use Rattle.poly.specs.Sizes.{served};

/// That polynomials of this size have products: from 2 to 820 coefficients, modulo 3 or modulo 2^k with k from 1 to 13.
pub trait Served<const N: usize, const M: u16> {
    ghost within: { served N M ≡ true };
}
