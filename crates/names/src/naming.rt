//! The names of the kinds.
ghost use Rattle.std.specs.Prelude.{◌≡◌, Some};
ghost use Rattle.std.specs.Result.{result_ok};
ghost use Rattle.names.specs.Names.{name_text, among, name_of};

use std::fmt;

#[derive(Clone, Copy, PartialEq, Eq, Debug)]
pub enum Name {
    Q3,
    Q509,
    Q677,
    Q701,
    Q821,
    T3,
    T509,
    T677,
    T701,
    T821,
    W,
}

// Each case once: no derive lists them.
const ALL: [Name; 11] = [
    Name::Q3,
    Name::Q509,
    Name::Q677,
    Name::Q701,
    Name::Q821,
    Name::T3,
    Name::T509,
    Name::T677,
    Name::T701,
    Name::T821,
    Name::W,
];

impl Name {
    fn text(&self) -> &'static str
        ensures { result.now ≡ name_text self.now }
    {
        match self {
            Name::Q3 => "Q(3,3)",
            Name::Q509 => "Q(509,11)",
            Name::Q677 => "Q(677,11)",
            Name::Q701 => "Q(701,13)",
            Name::Q821 => "Q(821,12)",
            Name::T3 => "T(3)",
            Name::T509 => "T(509)",
            Name::T677 => "T(677)",
            Name::T701 => "T(701)",
            Name::T821 => "T(821)",
            Name::W => "W",
        }
    }
}

impl fmt::Display for Name {
    ghost output = { λ n. Some (name_text n) };

    fn fmt<W: fmt::Write>(&self, f: &mut fmt::Formatter<W>) -> fmt::Result {
        f.write_str(self.text())
    }
}

/// No kind that is put together is printed so.
#[derive(Clone, Copy, PartialEq, Eq, Debug)]
pub struct UnknownName;

// The kind that is printed so.
impl TryFrom<&[u8]> for Name {
    type Error = UnknownName;

    ghost try_from_gives = { λ text r. result_ok r ≡ name_of text.now };

    fn try_from(text: &[u8]) -> Result<Name, UnknownName> {
        among(&ALL, text).ok_or(UnknownName)
    }
}

// The first of these kinds that is printed so.
fn among(names: &[Name], text: &[u8]) -> Option<Name>
    ensures { result ≡ among names.now text.now }
{
    names
        .iter()
        .find(|name| name.text().as_bytes() == text)
        .copied()
}
