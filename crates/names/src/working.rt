//! Work in the kind that a name asks for.
ghost use Rattle.std.specs.Prelude.{List, ℤ};
ghost use Rattle.kinds.specs.Ring.{Ops};
ghost use Rattle.kinds.specs.Words.{Coding};
ghost use Rattle.poly.specs.Centred.{centred_numbers};
ghost use Rattle.poly.specs.Elements.{ops, coding};
ghost use Rattle.names.specs.Names.{by_size};

use crate::naming::Name;
use kinds::{Kind, Ring, W};
use poly::Centred;
use poly::sizes::*;

/// Work that can be done in every kind: in Q and T it may ask for centred numbers, in W it cannot.
pub trait Work {
    type Outcome;

    // What comes of it in a kind of polynomials, given by its operations, its words and its centred numbers.
    ghost in_polynomials: { Self → (M : Type 0) → Ops M → Coding M → (M → List ℤ) → Self.Outcome → Type 0 };

    // What comes of it in W.
    ghost in_bits: { Self → Self.Outcome → Type 0 };

    fn polynomials<P: Centred + Ring>(self) -> Self::Outcome
        ensures { in_polynomials self P P.ops P.coding P.numbers result };

    fn bits(self) -> Self::Outcome
        ensures { in_bits self result };
}

impl Name {
    /// Does the work in the kind with this name: the one place where a name becomes a type.
    pub fn run<T: Work>(self, work: T) -> T::Outcome
        ensures { by_size self (λ n q. T.in_polynomials work _ (ops n q) (coding n q) centred_numbers result) (T.in_bits work result) }
    {
        match self {
            Name::Q3 => work.polynomials::<Q3>(),
            Name::Q509 => work.polynomials::<Q509>(),
            Name::Q677 => work.polynomials::<Q677>(),
            Name::Q701 => work.polynomials::<Q701>(),
            Name::Q821 => work.polynomials::<Q821>(),
            Name::T3 => work.polynomials::<T3>(),
            Name::T509 => work.polynomials::<T509>(),
            Name::T677 => work.polynomials::<T677>(),
            Name::T701 => work.polynomials::<T701>(),
            Name::T821 => work.polynomials::<T821>(),
            Name::W => work.bits(),
        }
    }
}
