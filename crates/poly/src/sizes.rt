//! The kinds that are put together. Q(l, k) has l - 1 coefficients modulo 2^k, T(l) has l - 1 modulo 3. Each has an impl
//! of its own, which is the proof that its size is served: the law is no truth of every size, so there is no impl for all,
//! and no macro may write a ghost item.
ghost use Rattle.std.specs.Prelude.{refl};

use crate::elements::Poly;
use crate::served::Served;

/// Q(509, 11)
pub type Q509 = Poly<508, 2048>;

impl Served<508, 2048> for Q509 {
    ghost within = { refl };
}

/// Q(677, 11)
pub type Q677 = Poly<676, 2048>;

impl Served<676, 2048> for Q677 {
    ghost within = { refl };
}

/// Q(821, 12)
pub type Q821 = Poly<820, 4096>;

impl Served<820, 4096> for Q821 {
    ghost within = { refl };
}

/// Q(701, 13)
pub type Q701 = Poly<700, 8192>;

impl Served<700, 8192> for Q701 {
    ghost within = { refl };
}

/// Q(3, 3)
pub type Q3 = Poly<2, 8>;

impl Served<2, 8> for Q3 {
    ghost within = { refl };
}

pub type T509 = Poly<508, 3>;

impl Served<508, 3> for T509 {
    ghost within = { refl };
}

pub type T677 = Poly<676, 3>;

impl Served<676, 3> for T677 {
    ghost within = { refl };
}

pub type T821 = Poly<820, 3>;

impl Served<820, 3> for T821 {
    ghost within = { refl };
}

pub type T701 = Poly<700, 3>;

impl Served<700, 3> for T701 {
    ghost within = { refl };
}

pub type T3 = Poly<2, 3>;

impl Served<2, 3> for T3 {
    ghost within = { refl };
}
