//! What is asked for: a kind, a number of shares, and their words.
ghost use Rattle.office.specs.Requests.{Requested};

use crate::headers::Header;
use crate::troubles::Trouble;
use std::alloc::Global;
use text::{Reader, first_line, words};

/// A header, and the words of all the shares that it speaks of.
#[derive(Drop)]
pub struct Request {
    pub header: Header,
    pub words: Vec<u16>,
}

impl Request {
    // What the input asks for.
    pub(crate) fn parse(heap: Global, input: &[u8]) -> Result<Request, Trouble>
        ensures { Requested input.now result }
    {
        let line = first_line(input);
        let header = Header::parse(heap, line)?;
        let reader = Reader {
            text: input,
            at: line.len(),
        };
        let words = words(reader, heap)?;
        Ok(Request { header, words })
    }
}
