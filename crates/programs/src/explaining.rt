//! What is wrong with an input, in words for the person who typed it.
ghost use Rattle.std.specs.Prelude.{◌≡◌, ℕ, Option};
ghost use Rattle.programs.specs.Explaining.{told};

use std::fmt;
use text::Place;

/// What is wrong with an input, printed as a message that leaves out where.
pub trait Placed: fmt::Display {
    // The offset that the message is about, where it is about one.
    ghost offset: { Self → Option ℕ };

    fn offset(&self) -> Option<usize>
        ensures { result ≡ offset self.now };
}

/// A trouble, with the input that it comes from.
#[derive(Clone, Copy)]
pub struct Explained<'a, T> {
    pub input: &'a [u8],
    pub trouble: T,
}

impl<T: Placed> fmt::Display for Explained<'_, T> {
    ghost output = { λ e. told e.input.now (T.offset e.trouble) (T.Display.output e.trouble) };

    fn fmt<W: fmt::Write>(&self, f: &mut fmt::Formatter<W>) -> fmt::Result {
        let trouble = &self.trouble;
        match trouble.offset() {
            Some(at) => {
                let place = Place::of(self.input, at);
                write!(f, "{place}: {trouble}")
            }
            None => write!(f, "{trouble}"),
        }
    }
}
