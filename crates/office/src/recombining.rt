//! The element that shares make up, from their words.
ghost use Rattle.std.specs.Prelude.{length};
ghost use Rattle.office.specs.Sums.{Summed, Recombined};

use crate::requests::Request;
use crate::troubles::Trouble;
use kinds::{Kind, Refusal, read_list, recombine};
use std::alloc::Global;

// The sum of the shares that are sent.
pub(crate) fn recombined<K: Kind>(heap: Global, request: &Request) -> Result<K, Trouble>
    ensures { Recombined K.ops K.coding request.now.header.shares request.now.words.items result }
{
    let mut list = vec![in heap; K::zero(); request.header.shares]?;
    Ok(summed(&request.words, &mut list)?)
}

// The sum of the elements with these words, which it reads into the list.
fn summed<K: Kind>(words: &[u16], list: &mut [K]) -> Result<K, Refusal>
    ensures { Summed K.ops K.coding (length list.old) words.now result }
{
    read_list(words, list)?;
    Ok(recombine(list))
}
