//! Polynomials modulo 1 + X + ... + X^N and a modulus M: the kinds Q and T.
#![tactic(auto)]

pub mod elements;
mod lanes;
pub mod served;
pub mod sizes;

pub use elements::Poly;
pub use elements::centred::Centred;
