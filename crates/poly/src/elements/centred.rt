//! Coefficients as numbers around zero, as the office wants them.
ghost use Rattle.std.specs.Prelude.{◌≡◌, ◌<◌, List, ℤ};
ghost use Rattle.kinds.specs.Words.{Shows};
ghost use Rattle.poly.specs.Centred.{centred, centred_numbers};
ghost use Rattle.poly.specs.Elements.{coefficient};
ghost use Rattle.poly.specs.Modulus.{modulus};

use super::Poly;
use kinds::{Kind, Refusal, show_each};

// Above half of m, c counts as c - m.
fn centre(c: u16, m: u16) -> i16
    requires { c < modulus m }
    ensures { result ≡ centred (modulus m) c }
{
    if c > m / 2 {
        -((m - c) as i16)
    } else {
        c as i16
    }
}

/// A kind whose elements have centred numbers.
pub trait Centred: Kind {
    ghost numbers: { Self → List ℤ };

    /// Writes the centred numbers of the coefficients into the buffer, constant term first.
    fn centred(&self, out: &mut [i16]) -> Result<(), Refusal>
        ensures { Shows Self.coding.width (numbers self.now) out.old out.new result };
}

impl<const N: usize, const M: u16> Centred for Poly<N, M> {
    ghost numbers = { centred_numbers };

    fn centred(&self, out: &mut [i16]) -> Result<(), Refusal> {
        show_each(
            N,
            out,
            |i| -> i16
                ensures { result ≡ centred (modulus M) (coefficient self.entry.now i) }
            { centre(self.word(i), M) },
        )
    }
}
