//! The answer to an input: a line for each case, or what is wrong.
ghost use Rattle.kinds.specs.Bits.{ops as bit_ops, coding as bit_coding};
ghost use Rattle.text.specs.Lines.{lines_to_come};
ghost use Rattle.text.specs.Tokens.{to_come};
ghost use Rattle.cases.specs.Answers.{ByName, Line, Lines, Answers};
ghost use Rattle.cases.specs.Questions.{contents};
ghost use Rattle.cases.specs.Results.{Works};
ghost use Rattle.cases.specs.Troubles.{UnlessMemory};

use crate::questions::Question;
use crate::results::computed;
use crate::rows::row;
use crate::troubles::Trouble;
use kinds::{Kind, Ring, W};
use names::Work;
use poly::Centred;
use programs::shown;
use std::alloc::Global;
use text::{LineReader, Reader};

/// The results of the cases that the input holds, a line for each.
pub fn answer(heap: Global, input: &[u8]) -> Result<String, Trouble>
    ensures { Answers input.now result }
{
    all(heap, LineReader::new(input))
}

// The results of the lines to come.
fn all(heap: Global, lines: LineReader) -> Result<String, Trouble>
    ensures { UnlessMemory (Lines (lines_to_come lines.entry)) result }
{
    let mut text = String::new(heap);
    for line in lines {
        let result = one(heap, line)?;
        text.push_str(result.as_str())?;
    }
    Ok(text)
}

// The result of one line; a line with no token has none.
fn one(heap: Global, mut line: Reader) -> Result<String, Trouble>
    ensures { UnlessMemory (Line (to_come line.entry)) result }
{
    match line.token() {
        None => Ok(String::new(heap)),
        Some(kind) => {
            let question = Question::parse(heap, kind, line)?;
            by_name(heap, &question)
        }
    }
}

// The result in the kind that is asked for. Apart from `one`, whose proof is about lines alone.
fn by_name(heap: Global, question: &Question) -> Result<String, Trouble>
    ensures { UnlessMemory (ByName (contents question.now)) result }
{
    question.name.run(Answering { heap, question })
}

// The work of making the line that a question is answered with.
#[derive(Drop)]
struct Answering<'a> {
    heap: Global,
    question: &'a Question,
}

impl Work for Answering<'_> {
    type Outcome = Result<String, Trouble>;

    ghost in_polynomials = { λ w M R C numbers r. UnlessMemory (Works R C (contents w.question.now)) r };

    ghost in_bits = { λ w r. UnlessMemory (Works bit_ops bit_coding (contents w.question.now)) r };

    fn polynomials<P: Centred + Ring>(self) -> Result<String, Trouble> {
        worked::<P>(self.heap, self.question)
    }

    fn bits(self) -> Result<String, Trouble> {
        worked::<W>(self.heap, self.question)
    }
}

// The result in the kind K.
fn worked<K: Ring>(heap: Global, question: &Question) -> Result<String, Trouble>
    ensures { UnlessMemory (Works K.ops K.coding (contents question.now)) result }
{
    let result: K = computed(heap, question)?;
    let words = shown(heap, &result)?;
    Ok(row(heap, &words)?)
}
