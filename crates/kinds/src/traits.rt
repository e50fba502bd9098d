//! What every kind of element has: operations with their laws, and words.
ghost use Rattle.std.specs.Prelude.{◌≡◌, ℕ, slice_index};
ghost use Rattle.kinds.specs.Ring.{Ops, Laws};
ghost use Rattle.kinds.specs.Words.{Coding, Codes};

/// A kind is given by operations and words; the ghost members are what they mean, and the proofs that they keep the laws.
/// Operations and coding are two records: laws and sums speak of the operations alone, reading and showing of the coding alone.
pub trait Kind: Copy {
    ghost ops: { Ops Self };

    ghost laws: { Laws ops };

    ghost coding: { Coding Self };

    ghost codes: { Codes coding };

    /// The count of words of an element.
    const WORDS: usize;

    /// Every word of an element is below this.
    const LIMIT: u32;

    ghost WORDS: { ℕ };

    ghost LIMIT: { ℕ };

    fn zero() -> Self
        ensures { result ≡ ops.zero };

    fn plus(&self, other: &Self) -> Self
        ensures { result ≡ ops.plus self.now other.now };

    fn minus(&self, other: &Self) -> Self
        ensures { result ≡ ops.minus self.now other.now };

    /// The element that these words stand for: missing ones count as 0, too large ones are reduced.
    fn from_words(words: &[u16]) -> Self
        ensures { result ≡ coding.element words.now };

    /// One of the element's words, and 0 past them.
    fn word(&self, i: usize) -> u16
        ensures { result ≡ slice_index (coding.words self.now) i };

    ghost words_is: { WORDS ≡ coding.width };

    ghost limit_is: { LIMIT ≡ coding.limit };
}

/// A kind whose products are computed too.
pub trait Ring: Kind {
    fn one() -> Self
        ensures { result ≡ Self.ops.one };

    fn times(&self, other: &Self) -> Self
        ensures { result ≡ Self.ops.times self.now other.now };
}
