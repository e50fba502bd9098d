//! Numbers into text, each behind a space.
ghost use Rattle.std.specs.Prelude.{◌≡◌, ℕ, List, ◌∷◌, ◌++◌, Some, string_bytes, OnOk};
ghost use Rattle.text.specs.Shown.{spaced};

use std::alloc::AllocError;
use std::fmt::Display;

/// Appends one number behind a space.
pub fn push_number<T: Display>(text: &mut String, number: &T) -> Result<(), AllocError>
    ensures { OnOk result ((digits : List ℕ) → T.Display.output number.now ≡ Some digits
        → string_bytes text.new ≡ string_bytes text.old ++ (32 ∷ digits)) }
{
    write!(text, " {number}")
}

/// Appends the numbers, each behind a space.
pub fn push_numbers<T: Display>(text: &mut String, numbers: &[T]) -> Result<(), AllocError>
    ensures { OnOk result ((digits : T → List ℕ) → ((x : T) → T.Display.output x ≡ Some (digits x))
        → string_bytes text.new ≡ string_bytes text.old ++ spaced digits numbers.now) }
{
    for number in numbers {
        push_number(text, number)?;
    }
    Ok(())
}
