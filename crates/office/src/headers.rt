//! The first line: a kind, and how many shares of it there are.
ghost use Rattle.std.specs.Prelude.{◌≡◌};
ghost use Rattle.text.specs.Tokens.{tokens_of};
ghost use Rattle.office.specs.Headers.{q_name, t_name, with_shares, named, limited, header};
ghost use Rattle.office.specs.Troubles.{UnlessMemory};

use crate::troubles::Trouble;
use names::Name;
use std::alloc::Global;
use text::{Reader, words};

/// A kind, and how many shares of it there are.
#[derive(Clone, Copy, PartialEq, Eq, Debug)]
pub struct Header {
    pub name: Name,
    pub shares: usize,
}

impl Header {
    // What a first line asks for.
    pub(crate) fn parse(heap: Global, line: &[u8]) -> Result<Header, Trouble>
        ensures { UnlessMemory (header (tokens_of line.now)) result }
    {
        let mut reader = Reader::new(line);
        let first = reader.token().ok_or(Trouble::Header { at: 0 })?;
        let numbers = words(reader, heap)?;
        limited(first.at, named(first.text, &numbers))
    }
}

// At most 64 shares may be asked for.
fn limited(at: usize, asked: Option<Header>) -> Result<Header, Trouble>
    ensures { result ≡ limited at asked }
{
    let header = asked.ok_or(Trouble::Header { at })?;
    if header.shares <= 64 {
        Ok(header)
    } else {
        Err(Trouble::ShareCount { at })
    }
}

// What a first token and the numbers behind it ask for.
fn named(token: &[u8], numbers: &[u16]) -> Option<Header>
    ensures { result ≡ named token.now numbers.now }
{
    match (token, numbers) {
        (b"Q", [l, k, shares]) => with_shares(q_name(*l, *k), *shares),
        (b"T", [l, shares]) => with_shares(t_name(*l), *shares),
        (b"W", [shares]) => with_shares(Some(Name::W), *shares),
        _ => None,
    }
}

// The kind, where there is one, with so many shares. A function of its own: with `?` in its arms the proof of `named` stays open.
fn with_shares(name: Option<Name>, shares: u16) -> Option<Header>
    ensures { result ≡ with_shares shares name }
{
    let name = name?;
    let shares = usize::from(shares);
    Some(Header { name, shares })
}

// The kind Q(l, k), where it is put together. A function for each letter: to a `TryFrom` numbers alone would not tell Q from T.
fn q_name(l: u16, k: u16) -> Option<Name>
    ensures { result ≡ q_name l k }
{
    match (l, k) {
        (3, 3) => Some(Name::Q3),
        (509, 11) => Some(Name::Q509),
        (677, 11) => Some(Name::Q677),
        (701, 13) => Some(Name::Q701),
        (821, 12) => Some(Name::Q821),
        _ => None,
    }
}

// The kind T(l), where it is put together.
fn t_name(l: u16) -> Option<Name>
    ensures { result ≡ t_name l }
{
    match l {
        3 => Some(Name::T3),
        509 => Some(Name::T509),
        677 => Some(Name::T677),
        701 => Some(Name::T701),
        821 => Some(Name::T821),
        _ => None,
    }
}
