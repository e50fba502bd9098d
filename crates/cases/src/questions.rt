//! What a line asks for.
ghost use Rattle.text.specs.Tokens.{word, to_come};
ghost use Rattle.cases.specs.Questions.{Asked};

use crate::operations::Operation;
use crate::troubles::Trouble;
use names::Name;
use std::alloc::Global;
use text::{Reader, Token, words};

/// An operation in a kind, on operands with these words; the line's first token has this offset.
#[derive(Drop)]
pub struct Question {
    pub at: usize,
    pub name: Name,
    pub operation: Operation,
    pub words: Vec<u16>,
}

impl Question {
    // What a line asks for that begins with the token `kind` and goes on with `rest`.
    pub(crate) fn parse(heap: Global, kind: Token, mut rest: Reader) -> Result<Question, Trouble>
        ensures { Asked (word kind.entry) (to_come rest.entry) result }
    {
        let at = kind.at;
        let name = Name::try_from(kind.text).map_err(|_| Trouble::UnknownKind { at })?;
        let token = rest.token().ok_or(Trouble::UnknownOperation { at })?;
        let operation = Operation::try_from(token.text).map_err(|_| Trouble::UnknownOperation {
            at: token.at,
        })?;
        let words = words(rest, heap)?;
        Ok(Question {
            at,
            name,
            operation,
            words,
        })
    }
}
