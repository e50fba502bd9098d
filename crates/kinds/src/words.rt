//! Elements as words of 16 bits.
ghost use Rattle.std.specs.Prelude.{◌≡◌, ℕ, ◌<◌, List, length, get_or, slice_index};
ghost use Rattle.std.specs.List.{flat_map};
ghost use Rattle.kinds.specs.Words.{Readable, Judged, Reads, Lists, Shows};

use crate::refusals::Refusal;
use crate::traits::Kind;

/// The element whose words these are.
pub fn read<K: Kind>(words: &[u16]) -> Result<K, Refusal>
    ensures { Reads K.coding words.now result }
{
    judge::<K>(words, 1)?;
    Ok(K::from_words(words))
}

/// Writes the element's words into the buffer.
pub fn show<K: Kind>(x: &K, out: &mut [u16]) -> Result<(), Refusal>
    ensures { Shows K.coding.width (K.coding.words x.now) out.old out.new result }
{
    show_each(
        K::WORDS,
        out,
        |i| -> u16
            ensures { result ≡ slice_index (K.coding.words x.entry.now) i }
        { x.word(i) },
    )
}

/// Reads as many elements as the list has. All words are judged before the first element is written.
pub fn read_list<K: Kind>(words: &[u16], list: &mut [K]) -> Result<(), Refusal>
    ensures { Lists K.coding words.now list.old list.new result }
{
    judge::<K>(words, list.len())?;
    fill(words, list);
    Ok(())
}

/// The word at a place, and 0 past the end.
pub fn word_at(words: &[u16], place: usize) -> u16
    ensures { result ≡ slice_index words.now place }
{
    words.get(place).copied().unwrap_or(0)
}

// Refuses words that are not those of m elements.
fn judge<K: Kind>(words: &[u16], m: usize) -> Result<(), Refusal>
    ensures { Judged K.coding m words.now result }
{
    if m.checked_mul(K::WORDS) != Some(words.len()) {
        return Err(Refusal::WordCount);
    }
    match words.iter().position(|word| u32::from(*word) >= K::LIMIT) {
        None => Ok(()),
        Some(place) => Err(Refusal::CoefficientTooLarge {
            element: place / K::WORDS,
            exponent: place % K::WORDS,
        }),
    }
}

/// Writes n values into the buffer, the one at place i as f(i) gives it.
pub fn show_each<T: Copy, F: Fn(usize) -> T>(n: usize, out: &mut [T], f: F) -> Result<(), Refusal>
    requires { (i : ℕ) → i < n → F.pre f i }
    ensures { (xs : List T) (d : T) → length xs ≡ n → ((i : ℕ) (x : T) → i < n → F.post f i x → x ≡ get_or xs i d)
        → Shows n xs out.old out.new result }
{
    if out.len() != n {
        return Err(Refusal::BufferLength);
    }
    // By place, as f asks.
    for (i, value) in out.iter_mut().enumerate() {
        *value = f(i);
    }
    Ok(())
}

// Writes the elements of readable words.
// No `zip` with `chunks_exact`: behind `zip` no proof knows what was written, and `WORDS` may be 0.
fn fill<K: Kind>(words: &[u16], list: &mut [K])
    requires { Readable K.coding (length list.old) words.now }
    ensures { flat_map K.coding.words list.new ≡ words.now }
{
    let mut rest = words;
    for slot in list.iter_mut() {
        let (front, back) = rest.split_at(K::WORDS);
        *slot = K::from_words(front);
        rest = back;
    }
}
