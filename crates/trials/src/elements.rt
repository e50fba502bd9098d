//! Words, refusals, sums and centred numbers of each kind.
use kinds::*;
use poly::Centred;
use poly::sizes::*;
use programs::shown;
use std::test::Fail;

#[test]
fn words_of_w_are_shown_again(rt: HostRuntime) -> Result<(), Fail> {
    let x = read::<W>(&[0x5678, 0x1234])?;
    assert_eq!(rt; x.bits, 0x1234_5678);
    let mut out = [0; 2];
    show(&x, &mut out)?;
    assert_eq!(rt; out, [0x5678, 0x1234]);
    Ok(())
}

#[test]
fn an_element_of_w_is_read_again(rt: HostRuntime) -> Result<(), Fail> {
    let mut out = [0; 2];
    show(&W { bits: 0xffff_0001 }, &mut out)?;
    assert_eq!(rt; read::<W>(&out)?.bits, 0xffff_0001);
    Ok(())
}

#[test]
fn words_are_shown_in_a_list_of_their_own(rt: HostRuntime) -> Result<(), Fail> {
    let words = shown(rt.alloc(), &W { bits: 0x1234_5678 })?;
    assert_eq!(rt; words.as_slice(), [0x5678, 0x1234].as_slice());
    Ok(())
}

#[test]
fn words_of_q_and_t_are_shown_again(rt: HostRuntime) -> Result<(), Fail> {
    let mut out = [9; 2];
    show(&read::<Q3>(&[7, 0])?, &mut out)?;
    assert_eq!(rt; out, [7, 0]);
    show(&read::<T3>(&[0, 2])?, &mut out)?;
    assert_eq!(rt; out, [0, 2]);
    Ok(())
}

#[test]
fn an_element_of_q_or_t_is_read_again(rt: HostRuntime) -> Result<(), Fail> {
    let mut out = [9; 2];
    show(&Q3::from_words(&[6, 5]), &mut out)?;
    let x = read::<Q3>(&out)?;
    assert_eq!(rt; (x.word(0), x.word(1)), (6, 5));
    show(&T3::from_words(&[2, 1]), &mut out)?;
    let y = read::<T3>(&out)?;
    assert_eq!(rt; (y.word(0), y.word(1)), (2, 1));
    Ok(())
}

#[test]
fn a_wrong_count_of_words_is_refused(rt: HostRuntime) {
    assert_eq!(rt; read::<W>(&[1]).err(), Some(Refusal::WordCount));
    assert_eq!(rt; read::<T3>(&[1, 1, 3]).err(), Some(Refusal::WordCount));
}

#[test]
fn the_largest_coefficient_passes_and_the_next_is_refused(rt: HostRuntime) -> Result<(), Fail> {
    let mut words = [0; 700];
    words[699] = 8191;
    assert_eq!(rt; read::<Q701>(&words)?.word(699), 8191);
    words[699] = 8192;
    let place = Refusal::CoefficientTooLarge {
        element: 0,
        exponent: 699,
    };
    assert_eq!(rt; read::<Q701>(&words).err(), Some(place));
    Ok(())
}

#[test]
fn a_refused_buffer_is_as_it_was(rt: HostRuntime) {
    let mut out = [9; 3];
    assert_eq!(rt; show(&W { bits: 1 }, &mut out), Err(Refusal::BufferLength));
    assert_eq!(rt; out, [9; 3]);
    let mut numbers = [-9; 1];
    assert_eq!(rt;
        Q3::zero().centred(&mut numbers),
        Err(Refusal::BufferLength)
    );
    assert_eq!(rt; numbers, [-9; 1]);
}

#[test]
fn a_list_is_read_or_left_as_it_was(rt: HostRuntime) -> Result<(), Fail> {
    let mut list = [T3::from_words(&[1, 1]); 2];
    assert_eq!(rt; read_list(&[0, 2, 1], &mut list), Err(Refusal::WordCount));
    let place = Refusal::CoefficientTooLarge {
        element: 1,
        exponent: 0,
    };
    assert_eq!(rt; read_list(&[0, 2, 3, 0], &mut list), Err(place));
    assert_eq!(rt; (list[0].word(0), list[0].word(1)), (1, 1));
    read_list(&[0, 2, 2, 0], &mut list)?;
    assert_eq!(rt; (list[0].word(1), list[1].word(0)), (2, 2));
    let mut none: [T3; 0] = [];
    assert_eq!(rt; read_list(&[], &mut none), Ok(()));
    Ok(())
}

#[test]
fn shares_are_added(rt: HostRuntime) {
    let none: [W; 0] = [];
    assert_eq!(rt; recombine(&none).bits, 0);
    assert_eq!(rt;
        recombine(&[W { bits: 12 }, W { bits: 10 }, W { bits: 1 }]).bits,
        7
    );
    let sum = recombine(&[Q3::from_words(&[5, 1]), Q3::from_words(&[6, 7])]);
    assert_eq!(rt; (sum.word(0), sum.word(1)), (3, 0));
    let difference = T3::from_words(&[0, 2]).minus(&T3::from_words(&[1, 1]));
    assert_eq!(rt; (difference.word(0), difference.word(1)), (2, 1));
}

#[test]
fn numbers_are_centred(rt: HostRuntime) -> Result<(), Fail> {
    let mut numbers = [0; 2];
    Q3::from_words(&[4, 5]).centred(&mut numbers)?;
    assert_eq!(rt; numbers, [4, -3]);
    T3::from_words(&[1, 2]).centred(&mut numbers)?;
    assert_eq!(rt; numbers, [1, -1]);
    Ok(())
}

#[test]
fn refusals_have_their_numbers(rt: HostRuntime) -> Result<(), Fail> {
    assert_eq!(rt; Refusal::NotInvertible.number(), 17);
    let place = Refusal::CoefficientTooLarge {
        element: 2,
        exponent: 507,
    };
    let text = format!(in rt.alloc(); "{place}")?;
    assert_eq!(rt;
        text.as_str(),
        "2: a coefficient is too large: element 2 (counted from 0), exponent 507"
    );
    Ok(())
}
