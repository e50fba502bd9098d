//! Lines of numbers.
ghost use Rattle.std.specs.Prelude.{◌≡◌, ◌++◌, IfOk, string_bytes, codes};
ghost use Rattle.cases.specs.Results.{separated};

use std::alloc::{AllocError, Global};
use text::push_numbers;

// The numbers, and the end of the line.
pub(crate) fn row(heap: Global, numbers: &[u16]) -> Result<String, AllocError>
    ensures { IfOk result (λ t. string_bytes t ≡ separated numbers.now ++ codes "\n") }
{
    let mut text = separated(heap, numbers)?;
    text.push_str("\n")?;
    Ok(text)
}

// The numbers, with single spaces between them.
fn separated(heap: Global, numbers: &[u16]) -> Result<String, AllocError>
    ensures { IfOk result (λ t. string_bytes t ≡ separated numbers.now) }
{
    match numbers {
        [] => Ok(String::new(heap)),
        [first, rest @ ..] => {
            let mut text = format!(in heap; "{first}")?;
            push_numbers(&mut text, rest)?;
            Ok(text)
        }
    }
}
