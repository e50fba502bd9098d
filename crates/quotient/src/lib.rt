//! Polynomials over any commutative ring, and what is left of them modulo 1 + X + ... + X^n: definitions and laws
//! alone, for the proofs of the kinds Q and T.
#![tactic(auto)]
