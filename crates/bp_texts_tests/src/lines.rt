//! Texts of the lines of a table.
use std::alloc::{AllocError, Global};

/// These lines, with another one in the place of one of them, which is counted from 1.
pub(crate) fn text_with(
    alloc: Global,
    lines: &[&str],
    place: usize,
    other: &str,
) -> Result<Vec<u8>, AllocError> {
    let mut text = Vec::new(alloc);
    for (line, before) in lines.iter().zip(0..lines.len()) {
        if before.wrapping_add(1) == place {
            text.extend_from_slice(other.as_bytes())?;
        } else {
            text.extend_from_slice(line.as_bytes())?;
        }
        text.push(b'\n')?;
    }
    Ok(text)
}

/// The text of these lines.
pub(crate) fn text_of(alloc: Global, lines: &[&str]) -> Result<Vec<u8>, AllocError> {
    text_with(alloc, lines, 0, "")
}
