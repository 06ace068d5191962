//! Rows one after the other, numbers and codes.
use crate::three_nights::refusal;
use bp_stayfile::tables::{header, is_code, number_of};
use bp_stayfile::{Column, TableRefusal};
use std::test::Fail;

#[test]
fn rows_up_to_the_stop(rt: HostRuntime) -> Result<(), Fail> {
    let text = "item, code ,c\n1,\"2,\n\"\"3\"\"\",x\n\n  4 5  ,,y\n6,7\n8,9,z\n";
    let mut at = header(rt.alloc(), text.as_bytes(), &[Column::Code, Column::Item])?;
    for line in [2, 3] {
        let Some(row) = at.next()? else {
            return Err(Fail::new("no row"));
        };
        assert_eq!(rt; row.line(), line);
        at = row;
    }
    assert_eq!(rt; refusal(at.next()), Some(TableRefusal::NotCsv { line: 4 }));
    Ok(())
}

#[test]
fn rows_up_to_the_end(rt: HostRuntime) -> Result<(), Fail> {
    let at = header(rt.alloc(), b"code\na", &[Column::Code])?;
    let Some(row) = at.next()? else {
        return Err(Fail::new("no row"));
    };
    assert_eq!(rt; row.line(), 2);
    assert!(rt; row.next()?.is_none());
    Ok(())
}

#[test]
fn numbers_and_codes(rt: HostRuntime) {
    for (text, number) in [
        ("0", Some(0)),
        ("007", Some(7)),
        ("999999999999999999", Some(999_999_999_999_999_999)),
        ("0000000000000000001", None),
        ("", None),
        ("-1", None),
        ("1 2", None),
        ("٣", None),
    ] {
        assert_eq!(rt; number_of(text), number, "{text}");
    }
    for (text, yes) in [
        ("A-b_9.", true),
        ("0123456789abcdef", true),
        ("0123456789abcdefg", false),
        ("", false),
        ("a b", false),
        ("é", false),
    ] {
        assert_eq!(rt; is_code(text), yes, "{text}");
    }
}
