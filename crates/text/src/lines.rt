//! Lines: each ends before a line feed, or at the end of the text.
ghost use Rattle.std.specs.Prelude.{◌≡◌, ◌+◌, [], ◌∷◌, length, MatchOption};
ghost use Rattle.std.specs.Iterator.{YieldsFirstBy, item_count};
ghost use Rattle.text.specs.Lines.{first_line, lines_at, lines_of, lines_to_come};
ghost use Rattle.text.specs.Tokens.{to_come};

use crate::cuts::before;
use crate::tokens::Reader;

/// Gives the lines of `text` from offset `at` on, one after another.
/// A type apart from `Reader`, as std's `Lines` is from `Chars`: the type says what comes.
#[derive(Drop)]
pub struct LineReader<'a> {
    pub text: &'a [u8],
    pub at: usize,
}

/// The bytes before the first line feed.
pub fn first_line(text: &[u8]) -> &[u8]
    ensures { result.now ≡ first_line text.now }
{
    before(text, |b| b == b'\n')
}

impl<'a> LineReader<'a> {
    /// Starts at the first byte.
    pub fn new(text: &'a [u8]) -> LineReader<'a>
        ensures { lines_to_come result ≡ lines_of text.now }
    {
        LineReader { text, at: 0 }
    }

    /// The tokens of the next line, or `None` at the end. Kept beside `next`, as a public name that stays.
    #[tactic(auto, using(crate::proofs::Lining::lines_capped))]
    pub fn line(&mut self) -> Option<Reader<'a>>
        ensures { YieldsFirstBy to_come lines_to_come self.old result self.new }
    {
        let line = self.peek()?;
        // Behind the line feed, or at the end where there is none.
        self.at = (line.text.len() + 1).min(self.text.len());
        Some(line)
    }

    // The same, and the line is still to come.
    fn peek(&self) -> Option<Reader<'a>>
        ensures { MatchOption result (lines_to_come self.now ≡ [])
            (λ r. lines_to_come self.now ≡ to_come r ∷ lines_at (length r.text.now + 1) self.now.text.now) }
    {
        let ahead = self.text.get(self.at..)?;
        if ahead.is_empty() {
            return None;
        }
        let end = self.at + first_line(ahead).len();
        Some(Reader {
            text: &self.text[..end],
            at: self.at,
        })
    }
}

impl<'a> Iterator for LineReader<'a> {
    type Item = Reader<'a>;

    ghost next_gives = { YieldsFirstBy to_come lines_to_come };

    ghost remaining = { item_count lines_to_come };

    fn next(&mut self) -> Option<Reader<'a>> {
        self.line()
    }
}
