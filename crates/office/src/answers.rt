//! The office's answer to an input: the report, or what is wrong.
ghost use Rattle.std.specs.Prelude.{◌≡◌, IfOk};
ghost use Rattle.kinds.specs.Bits.{ops as bit_ops, coding as bit_coding};
ghost use Rattle.office.specs.Answers.{Polynomial, Bits, ByName, Answers};

use crate::recombining::recombined;
use crate::report::{element_lines, push_centred};
use crate::requests::Request;
use crate::troubles::Trouble;
use kinds::{Kind, Ring, W};
use names::Work;
use poly::Centred;
use std::alloc::{AllocError, Global};

/// Reads the shares that the input holds, adds them, and reports their sum.
pub fn answer(heap: Global, input: &[u8]) -> Result<String, Trouble>
    ensures { Answers input.now result }
{
    let request = Request::parse(heap, input)?;
    reported(heap, &request)
}

// The report for the kind that is asked for. Apart from `answer`, which stays thin.
fn reported(heap: Global, request: &Request) -> Result<String, Trouble>
    ensures { ByName request.now.header request.now.words.items result }
{
    request.header.name.run(Reporting { heap, request })
}

// The work of making the report that a request asks for.
#[derive(Drop)]
struct Reporting<'a> {
    heap: Global,
    request: &'a Request,
}

impl Work for Reporting<'_> {
    type Outcome = Result<String, Trouble>;

    ghost in_polynomials = { λ w M R C numbers r. Polynomial R C numbers w.request.now.header w.request.now.words.items r };

    ghost in_bits = { λ w r. Bits bit_ops bit_coding w.request.now.header w.request.now.words.items r };

    fn polynomials<P: Centred + Ring>(self) -> Result<String, Trouble> {
        let Reporting { heap, request } = self;
        let sum: P = recombined(heap, request)?;
        let mut text = element_lines(heap, request.header, &sum)?;
        let numbers = centred_numbers(heap, &sum)?;
        push_centred(&mut text, &numbers)?;
        Ok(text)
    }

    fn bits(self) -> Result<String, Trouble> {
        bits::<W>(self.heap, self.request)
    }
}

// The element's centred numbers. Beside `shown`: one function for both would take a closure that fills the buffer, and a
// contract of when it fills it, longer than this.
fn centred_numbers<P: Centred>(heap: Global, x: &P) -> Result<Vec<i16>, AllocError>
    ensures { IfOk result (λ v. v.items ≡ P.numbers x.now) }
{
    let mut numbers = vec![in heap; 0; P::WORDS]?;
    match x.centred(&mut numbers) {
        Ok(()) => Ok(numbers),
        // The buffer is as long as the words, so no refusal comes.
        Err(_) => unreachable(),
    }
}

// The report of a sum in a kind whose elements have words alone. Generic, since the search gets lost in the words of W itself.
fn bits<K: Kind>(heap: Global, request: &Request) -> Result<String, Trouble>
    ensures { Bits K.ops K.coding request.now.header request.now.words.items result }
{
    let sum: K = recombined(heap, request)?;
    Ok(element_lines(heap, request.header, &sum)?)
}
