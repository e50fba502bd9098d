//! What is answered to cases, and how what is wrong with them is told.
use cases::{Explained, Trouble, answer};
use kinds::Refusal;
use names::{Name, UnknownName};
use std::alloc::Global;
use std::test::Fail;

// What is told of a wrong input.
fn told(heap: Global, input: &[u8]) -> Result<String, Fail> {
    match answer(heap, input) {
        Ok(_) => Err(Fail::new("no trouble")),
        Err(trouble) => Ok(format!(in heap; "{}", Explained { input, trouble })?),
    }
}

#[test]
fn cases_are_answered(rt: HostRuntime) -> Result<(), Fail> {
    let input = b"T(3) times 0 1 0 1\n\r\n\tW  times 65535 1 3 65535\r\nQ(3,3) times 0 1 7 7";
    let results = answer(rt.alloc(), input)?;
    assert_eq!(rt; results.as_str(), "2 2\n3 1\n1 0\n");
    let none = answer(rt.alloc(), b"\n \n")?;
    assert_eq!(rt; none.as_str(), "");
    Ok(())
}

#[test]
fn the_first_wrong_case_is_told(rt: HostRuntime) -> Result<(), Fail> {
    let heap = rt.alloc();
    let kind = told(heap, b"W times 1 2 3 4\n\n W(3) plus x")?;
    assert_eq!(rt;
        kind.as_str(),
        "line 3, column 2: expected a known kind, as `Q(509,11)`, `T(701)` or `W`"
    );
    let operation = told(heap, b"W plus x\nX")?;
    assert_eq!(rt;
        operation.as_str(),
        "line 1, column 3: expected the operation `times` behind the kind"
    );
    let word = told(heap, b"T(3) times 1 3 65536 x")?;
    assert_eq!(rt; word.as_str(), "line 1, column 16: larger than 65535");
    Ok(())
}

#[test]
fn operands_are_refused(rt: HostRuntime) -> Result<(), Fail> {
    let heap = rt.alloc();
    let count = Trouble::Refused {
        at: 1,
        refusal: Refusal::WordCount,
    };
    assert_eq!(rt; answer(heap, b"\nT(3) times 1 3 1").err(), Some(count));
    let large = told(heap, b"T(3) times 1 2 0 3")?;
    assert_eq!(rt;
        large.as_str(),
        "line 1, column 1: refused with 2: a coefficient is too large: element 1 (counted from 0), exponent 1"
    );
    Ok(())
}

#[test]
fn kinds_have_names(rt: HostRuntime) {
    assert_eq!(rt; Name::try_from(b"Q(821,12)".as_slice()), Ok(Name::Q821));
    assert_eq!(rt; Name::try_from(b"T(3".as_slice()), Err(UnknownName));
    assert_eq!(rt; Name::try_from(b"".as_slice()), Err(UnknownName));
}
