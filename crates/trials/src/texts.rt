//! Tokens and numbers: odd bytes, bounds, long numbers, places.
use std::test::Fail;
use text::faults::{Fault, Problem};
use text::lines::LineReader;
use text::lists::{WordsError, words};
use text::places::Place;
use text::tokens::{Reader, Token};

#[test]
fn reads_words(rt: HostRuntime) -> Result<(), Fail> {
    let all = words(Reader::new(b"\t7 0065535\r\n0"), rt.alloc())?;
    assert!(rt; all.len() == 3);
    assert!(rt; all[0] == 7 && all[1] == 65535 && all[2] == 0);
    let none = words(Reader::new(b""), rt.alloc())?;
    assert!(rt; none.is_empty());
    Ok(())
}

#[test]
fn blames_the_first(rt: HostRuntime) {
    let large = words(Reader::new(b"1 65536 x"), rt.alloc());
    let fault = Fault {
        at: 2,
        problem: Problem::TooLarge { most: 65535 },
    };
    assert_eq!(rt; large.err(), Some(WordsError::Bad(fault)));
    let nul = words(Reader::new(b"1 2\x00 x"), rt.alloc());
    let fault = Fault {
        at: 2,
        problem: Problem::NotANumber,
    };
    assert_eq!(rt; nul.err(), Some(WordsError::Bad(fault)));
}

#[test]
fn reads_long_numbers(rt: HostRuntime) {
    let nines = Token {
        text: &[b'9'; 1000],
        at: 0,
    };
    assert_eq!(rt;
        nines.number(u64::MAX),
        Err(Problem::TooLarge { most: u64::MAX })
    );
    let most = Token {
        text: b"18446744073709551615",
        at: 0,
    };
    assert_eq!(rt; most.number(u64::MAX), Ok(u64::MAX));
    let more = Token {
        text: b"18446744073709551616",
        at: 0,
    };
    assert_eq!(rt;
        more.number(u64::MAX),
        Err(Problem::TooLarge { most: u64::MAX })
    );
    assert_eq!(rt;
        Token { text: b"", at: 0 }.number(9),
        Err(Problem::NotANumber)
    );
}

#[test]
fn gives_lines_and_tokens(rt: HostRuntime) {
    let mut starts = [9; 3];
    for (start, line) in starts.iter_mut().zip(LineReader::new(b"a b\n\n c")) {
        for token in line {
            *start = token.at;
        }
    }
    assert_eq!(rt; starts, [2, 9, 6]);
}

#[test]
fn a_reader_of_lines_stops_at_the_end(rt: HostRuntime) {
    let mut lines = LineReader::new(b"a\nb");
    assert!(rt; lines.line().is_some());
    assert_eq!(rt; lines.at, 2);
    assert!(rt; lines.line().is_some());
    assert_eq!(rt; lines.at, 3);
    assert!(rt; lines.line().is_none());
}

#[test]
fn finds_places(rt: HostRuntime) -> Result<(), Fail> {
    let text = b"a\n\nbc";
    assert_eq!(rt; Place::of(text, 0), Place { line: 1, column: 1 });
    assert_eq!(rt; Place::of(text, 1), Place { line: 1, column: 2 });
    assert_eq!(rt; Place::of(text, 4), Place { line: 3, column: 2 });
    assert_eq!(rt; Place::of(text, 99), Place { line: 3, column: 3 });
    let shown = format!(in rt.alloc(); "{}", Place { line: 3, column: 7 })?;
    assert_eq!(rt; shown.as_str(), "line 3, column 7");
    Ok(())
}
