//! Drafts of several pieces, and words and digits on a few lines.
use bp_edges::{MemorySink, WriteError};
use bp_text::{Draft, Number, Words, digits, number, push_line, push_wide_line};
use std::test::Fail;

/// The last number that fits 128 bits.
const WIDEST: u128 = u128::MAX;

#[test]
fn a_text_of_some_pieces_is_written_as_it_is_spelt(rt: HostRuntime) -> Result<(), Fail> {
    let alloc = rt.alloc();
    let mut out = MemorySink::new(Vec::new(alloc));
    let mut draft = Draft::new(alloc)?;
    let mut whole = Vec::new(alloc);
    draft.push_wide_line(b"value", WIDEST, &mut out)?;
    push_wide_line(&mut whole, b"value", WIDEST)?;
    for number in 0..10_000 {
        draft.push_line(b"stay", &[number, 7], &mut out)?;
        push_line(&mut whole, b"stay", &[number, 7])?;
    }
    assert!(rt; out.written().len() == 65_536, "the rest is in the draft");
    draft.hand_on(&mut out)?;
    assert!(rt; out.written() == whole.as_slice());
    Ok(())
}

#[test]
fn a_second_piece_that_is_refused_leaves_the_first(rt: HostRuntime) -> Result<(), Fail> {
    let alloc = rt.alloc();
    let mut failing = Vec::new(alloc);
    failing.push(2)?;
    let mut out = MemorySink::new(failing);
    let mut draft = Draft::new(alloc)?;
    let mut result = Ok(());
    for number in 0..30_000 {
        if result.is_ok() {
            result = draft.push_numbers(&[number], &mut out);
        }
    }
    assert!(rt; result == Err(WriteError::Failed));
    assert!(rt; out.written().len() == 65_536);
    Ok(())
}

#[test]
fn the_words_of_a_line_are_given_one_by_one(rt: HostRuntime) {
    let mut words = Words::new(b"3 book 12 ");
    assert!(rt; words.number(9).map(|counted| counted.value) == Some(3));
    assert!(rt; words.next() == Some(b"book".as_slice()));
    assert!(rt; words.number(11).map(|counted| counted.great) == Some(true));
    assert!(rt;
        words.next() == Some(b"".as_slice()),
        "behind the last space"
    );
    assert!(rt; words.next().is_none());
    assert!(rt; words.number(9).is_none());
}

/// Bytes, and what is read of them as digits and as a number up to 99.
const NUMBERS: [(&str, Number, Number); 6] = [
    ("12", Number::Value(12), Number::Value(12)),
    ("0", Number::Value(0), Number::Value(0)),
    ("012", Number::Value(12), Number::Bad),
    ("", Number::Value(0), Number::Bad),
    ("100", Number::Great, Number::Great),
    ("1x", Number::Bad, Number::Bad),
];

#[test]
fn digits_may_have_zeros_in_front_and_numbers_may_not(rt: HostRuntime) {
    for (bytes, as_digits, as_number) in &NUMBERS {
        assert!(rt; digits(bytes.as_bytes(), 99) == *as_digits, "{bytes}");
        assert!(rt; number(bytes.as_bytes(), 99) == *as_number, "{bytes}");
    }
}
