//! Cells of a fixed width, and texts that are wider.
use crate::cells::{push_left, push_number};
use std::test::Fail;

#[test]
fn what_is_wider_than_its_column_stands_whole(rt: HostRuntime) -> Result<(), Fail> {
    for (width, number, cell) in [
        (7, 0, "      0"),
        (7, 9_999_999, "9999999"),
        (7, 10_000_000, "10000000"),
        (5, u64::MAX, "18446744073709551615"),
    ] {
        let mut line = Vec::new(rt.alloc());
        push_number(&mut line, width, number)?;
        assert!(rt; line.as_slice() == cell.as_bytes(), "{cell}");
    }
    for (code, cell) in [
        ("P0", "P0              "),
        ("SIXTEEN-LETTERS.", "SIXTEEN-LETTERS."),
        ("SEVENTEEN-LETTERS", "SEVENTEEN-LETTERS"),
    ] {
        let mut line = Vec::new(rt.alloc());
        push_left(&mut line, 16, code.as_bytes())?;
        assert!(rt; line.as_slice() == cell.as_bytes(), "{cell}");
    }
    Ok(())
}
