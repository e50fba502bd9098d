//! The result of an operation on elements that are given by words.
ghost use Rattle.std.specs.Prelude.{◌≡◌, length};
ghost use Rattle.cases.specs.Questions.{contents};
ghost use Rattle.cases.specs.Results.{Computes, Computed};
ghost use Rattle.cases.specs.declared.operations.Operation.TheVariants.{Times};

use crate::operations::Operation;
use crate::questions::Question;
use crate::troubles::Trouble;
use kinds::{Kind, Refusal, Ring, read_list};
use std::alloc::Global;

// The result that is asked for, in the kind K.
pub(crate) fn computed<K: Ring>(heap: Global, question: &Question) -> Result<K, Trouble>
    ensures { Computed K.ops K.coding (contents question.now) result }
{
    // A `match`, since operations are a closed enum with operands of their own; there is one so far.
    let result = match question.operation {
        Operation::Times => {
            let mut operands = vec![in heap; K::zero(); 2]?;
            product(&question.words, &mut operands)
        }
    };
    let at = question.at;
    result.map_err(|refusal| Trouble::Refused { at, refusal })
}

// The product of the two elements with these words, which it reads into the list. Beside the office's `summed`, with which it
// shares `read_list` alone.
fn product<K: Ring>(words: &[u16], operands: &mut [K]) -> Result<K, Refusal>
    requires { length operands.old ≡ 2 }
    ensures { Computes K.ops K.coding Times words.now result }
{
    read_list(words, operands)?;
    Ok(operands[0].times(&operands[1]))
}
