//! Recombination: the sum of a lent list of elements.
ghost use Rattle.std.specs.Prelude.{◌≡◌};
ghost use Rattle.kinds.specs.Ring.{total};

use crate::traits::Kind;

/// The element that the shares make up; of no shares, zero.
pub fn recombine<K: Kind>(shares: &[K]) -> K
    ensures { result ≡ total K.ops K.ops.zero shares.now }
{
    shares.iter().fold(K::zero(), |sum, share| sum.plus(share))
}
