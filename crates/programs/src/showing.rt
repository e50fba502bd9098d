//! Elements as lists of words.
ghost use Rattle.std.specs.Prelude.{◌≡◌, IfOk};

use kinds::{Kind, show};
use std::alloc::{AllocError, Global};

/// The element's words.
// Beside the office's `centred_numbers`: one function for both would take a closure and a contract longer than both.
pub fn shown<K: Kind>(heap: Global, x: &K) -> Result<Vec<u16>, AllocError>
    ensures { IfOk result (λ v. v.items ≡ K.coding.words x.now) }
{
    let mut words = vec![in heap; 0; K::WORDS]?;
    match show(x, &mut words) {
        Ok(()) => Ok(words),
        // The buffer is as long as the words, so no refusal comes.
        Err(_) => unreachable(),
    }
}
