//! The report that is printed.
ghost use Rattle.std.specs.Prelude.{◌≡◌, ◌++◌, IfOk, OnOk, string_bytes};
ghost use Rattle.office.specs.Report.{heading, element_lines, centred_line};

use crate::headers::Header;
use kinds::Kind;
use programs::shown;
use std::alloc::{AllocError, Global};
use text::push_numbers;

// The lines for the sum of so many shares.
pub(crate) fn element_lines<K: Kind>(
    heap: Global,
    header: Header,
    sum: &K,
) -> Result<String, AllocError>
    ensures { IfOk result (λ t. string_bytes t ≡ element_lines header (K.coding.words sum.now)) }
{
    let words = shown(heap, sum)?;
    let mut text = heading(heap, header)?;
    push_numbers(&mut text, &words)?;
    text.push_str("\n")?;
    Ok(text)
}

fn heading(heap: Global, header: Header) -> Result<String, AllocError>
    ensures { IfOk result (λ t. string_bytes t ≡ heading header) }
{
    let Header { name, shares } = header;
    format!(in heap; "kind: {name}\nshares: {shares}\nelement:")
}

// Appends the line for the centred numbers.
pub(crate) fn push_centred(text: &mut String, numbers: &[i16]) -> Result<(), AllocError>
    ensures { OnOk result (string_bytes text.new ≡ string_bytes text.old ++ centred_line numbers.now) }
{
    text.push_str("centred:")?;
    push_numbers(text, numbers)?;
    text.push_str("\n")
}
