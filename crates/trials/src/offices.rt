//! What the office answers, and how it explains what is wrong.
use kinds::Refusal;
use office::{Explained, Trouble, answer};
use programs::serve;
use std::alloc::Global;
use std::io::{self, Write};
use std::process::ExitCode;
use std::test::Fail;
use text::{Fault, Problem};

// The answer to a refused input.
fn refusal(heap: Global, input: &[u8]) -> Option<Trouble> {
    answer(heap, input).err()
}

#[test]
fn shares_are_reported(rt: HostRuntime) -> Result<(), Fail> {
    let text = answer(rt.alloc(), b"Q 3 3 2\n5 1 6\n4")?;
    assert_eq!(rt;
        text.as_str(),
        "kind: Q(3,3)\nshares: 2\nelement: 3 5\ncentred: 3 -3\n"
    );
    let none = answer(rt.alloc(), b"W 0")?;
    assert_eq!(rt; none.as_str(), "kind: W\nshares: 0\nelement: 0 0\n");
    Ok(())
}

#[test]
fn words_are_refused(rt: HostRuntime) {
    let heap = rt.alloc();
    let count = Trouble::Refused(Refusal::WordCount);
    assert_eq!(rt; refusal(heap, b"T 3 2\n1 2 0"), Some(count));
    let large = Trouble::Refused(Refusal::CoefficientTooLarge {
        element: 1,
        exponent: 0,
    });
    assert_eq!(rt; refusal(heap, b"T 3 2\n1 2 3 0"), Some(large));
}

#[test]
fn bad_text_is_placed(rt: HostRuntime) -> Result<(), Fail> {
    let heap = rt.alloc();
    assert_eq!(rt; refusal(heap, b""), Some(Trouble::Header { at: 0 }));
    assert_eq!(rt;
        refusal(heap, b" Q 5 5 1\n"),
        Some(Trouble::Header { at: 1 })
    );
    assert_eq!(rt;
        refusal(heap, b"W 65\n"),
        Some(Trouble::ShareCount { at: 0 })
    );
    let fault = Trouble::BadText(Fault {
        at: 6,
        problem: Problem::NotANumber,
    });
    assert_eq!(rt; refusal(heap, b"W 1\n1 \x00"), Some(fault));
    let explained: Explained<'_> = Explained {
        input: b"W 1\n1 \x00",
        trouble: fault,
    };
    let text = format!(in heap; "{explained}")?;
    assert_eq!(rt; text.as_str(), "line 2, column 3: not a decimal number");
    Ok(())
}

#[test]
fn an_answer_goes_out(rt: HostRuntime) -> Result<(), Fail> {
    let mut output = Vec::new(rt.alloc());
    let mut errors = Vec::new(rt.alloc());
    let mut input = b"W 0".as_slice();
    let status = serve(rt.alloc(), answer, &mut input, &mut output, &mut errors)?;
    assert!(rt; status == ExitCode::SUCCESS);
    assert_eq!(rt;
        output.as_slice(),
        b"kind: W\nshares: 0\nelement: 0 0\n".as_slice()
    );
    assert!(rt; errors.is_empty());
    Ok(())
}

#[test]
fn a_trouble_is_told_as_a_line(rt: HostRuntime) -> Result<(), Fail> {
    let mut output = Vec::new(rt.alloc());
    let mut errors = Vec::new(rt.alloc());
    let mut input = b"W 1\n1 -".as_slice();
    let status = serve(rt.alloc(), answer, &mut input, &mut output, &mut errors)?;
    assert!(rt; status == ExitCode::FAILURE);
    assert!(rt; output.is_empty());
    assert_eq!(rt;
        errors.as_slice(),
        b"line 2, column 3: not a decimal number\n".as_slice()
    );
    Ok(())
}

// A stream that keeps how often it is written to, and the longest piece.
#[derive(Drop)]
struct Counting {
    writes: usize,
    longest: usize,
}

impl Write for Counting {
    fn write(&mut self, piece: &[u8]) -> io::Result<usize> {
        self.writes = self.writes.saturating_add(1);
        self.longest = self.longest.max(piece.len());
        Ok(piece.len())
    }

    fn flush(&mut self) -> io::Result<()> {
        Ok(())
    }
}

#[test]
fn a_line_goes_out_in_one_write_and_a_text_in_pieces(rt: HostRuntime) -> Result<(), Fail> {
    let mut output = Counting {
        writes: 0,
        longest: 0,
    };
    let mut errors = Counting {
        writes: 0,
        longest: 0,
    };
    let mut input = b"W 1\n1 -".as_slice();
    serve(rt.alloc(), answer, &mut input, &mut output, &mut errors)?;
    assert_eq!(rt; (output.writes, errors.writes), (0, 1));
    let mut input = b"T 509 0".as_slice();
    serve(rt.alloc(), answer, &mut input, &mut output, &mut errors)?;
    assert_eq!(rt; (output.writes, output.longest), (3, 1024));
    assert_eq!(rt; errors.writes, 1);
    Ok(())
}
