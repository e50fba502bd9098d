//! The functions of the static library. From C a slice is a pointer and a length, and the buffer overlaps no other slice.
//! C knows no type parameter and no enum with values: so there is a function for each size, and a number for each answer.
#![tactic(auto)]

ghost use Rattle.std.specs.Prelude.{◌≡◌, ◌-◌, ◌^◌};
ghost use Rattle.exports.specs.Products.{Multiplies, Sized, code};

use kinds::{Kind, Refusal, Ring, read, show};
use poly::sizes::{Q821, T821};

/// The product in Q(821, 12) of the elements with these words, written as words; answers 0, or the refusal's number.
#[unsafe(no_mangle)]
pub extern "C" fn fordkettle_q821_times(x: &[u16], y: &[u16], out: &mut [u16]) -> u8
    ensures { Sized (821 - 1) (2 ^ 12) x.now y.now out.old out.new result }
{
    code(product::<Q821>(x, y, out))
}

/// The product in T(821) of the elements with these words, written as words; answers 0, or the refusal's number.
#[unsafe(no_mangle)]
pub extern "C" fn fordkettle_t821_times(x: &[u16], y: &[u16], out: &mut [u16]) -> u8
    ensures { Sized (821 - 1) 3 x.now y.now out.old out.new result }
{
    code(product::<T821>(x, y, out))
}

// Writes the words of the product of the elements with these words.
fn product<K: Ring>(x: &[u16], y: &[u16], out: &mut [u16]) -> Result<(), Refusal>
    ensures { Multiplies K.ops K.coding x.now y.now out.old out.new result }
{
    if x.len() != K::WORDS || y.len() != K::WORDS {
        return Err(Refusal::WordCount);
    }
    let x: K = read(x)?;
    let y: K = read(y)?;
    show(&x.times(&y), out)
}

// 0, or the refusal's number.
fn code(answer: Result<(), Refusal>) -> u8
    ensures { result ≡ code answer }
{
    match answer {
        Ok(()) => 0,
        Err(refusal) => refusal.number(),
    }
}
