//! Tokens: the longest runs of bytes that are not white space.
ghost use Rattle.std.specs.Prelude.{◌≡◌, ◌+◌, ◌≤◌, [], ◌∷◌, length, IfSome, MatchOption};
ghost use Rattle.std.specs.Iterator.{YieldsFirstBy, item_count};
ghost use Rattle.text.specs.Tokens.{tokens_at, tokens_of, to_come, word};

use crate::cuts::end;

/// A token's bytes, and the offset of the first of them in the whole input.
#[derive(Clone, Copy, PartialEq, Eq, Debug)]
pub struct Token<'a> {
    pub text: &'a [u8],
    pub at: usize,
}

/// Gives the tokens of `text` from offset `at` on, one after another.
#[derive(Drop)]
pub struct Reader<'a> {
    pub text: &'a [u8],
    pub at: usize,
}

impl<'a> Reader<'a> {
    /// Starts at the first byte.
    pub fn new(text: &'a [u8]) -> Reader<'a>
        ensures text { result.text.now ≡ text.now }
        ensures tokens { to_come result ≡ tokens_of text.now }
    {
        Reader { text, at: 0 }
    }

    /// The next token, or `None` at the end.
    pub fn token(&mut self) -> Option<Token<'a>>
        ensures takes { YieldsFirstBy word to_come self.old result self.new }
        ensures text { self.new.text.now ≡ self.old.text.now }
    {
        let token = self.peek()?;
        self.at = token.at + token.text.len();
        Some(token)
    }

    // The same, and the token is still to come.
    fn peek(&self) -> Option<Token<'a>>
        ensures first { MatchOption result (to_come self.now ≡ [])
            (λ t. to_come self.now ≡ word t ∷ tokens_at (t.at + length t.text.now) self.now.text.now) }
        ensures within { IfSome result (λ t. t.at + length t.text.now ≤ length self.now.text.now) }
    {
        let at = end(self.text, self.at, |b| !b.is_ascii_whitespace());
        if at >= self.text.len() {
            return None;
        }
        let text = &self.text[at..end(self.text, at, |b| b.is_ascii_whitespace())];
        Some(Token { text, at })
    }
}

impl<'a> Iterator for Reader<'a> {
    type Item = Token<'a>;

    ghost next_gives = { YieldsFirstBy word to_come };

    ghost remaining = { item_count to_come };

    // `token` says besides that the text stays.
    fn next(&mut self) -> Option<Token<'a>> {
        self.token()
    }
}
