//! The elements of Q and T: N coefficients from 0 to M - 1, constant term first.
ghost use Rattle.std.specs.Prelude.{◌≡◌, ℕ, ◌<◌, length, slice_index};
ghost use Rattle.poly.specs.Modulus.{modulus};

pub mod arithmetic;
pub mod centred;
pub mod kind;
pub mod products;

#[derive(Clone, Copy, PartialEq, Eq, Debug)]
pub struct Poly<const N: usize, const M: u16> {
    coeffs: [u16; N],
    ghost long: { length coeffs ≡ N },
    ghost small: { (i : ℕ) → slice_index coeffs i < modulus M },
}
