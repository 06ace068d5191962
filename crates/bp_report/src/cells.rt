//! The cells of a line, each in a column of a fixed width. What is wider stands whole.
ghost use Rattle.std.specs.Prelude.{◌≡◌, ◌++◌, replicate, OnOk};
ghost use Rattle.bp_text.specs.Numbers.{spelled};
ghost use Rattle.bp_report.specs.Columns.{right, left};

use itoa::Buffer;
use std::alloc::AllocError;

/// What fills a column.
pub(crate) const SPACE: u8 = b' ';

/// What ends a line.
pub(crate) const LINE_END: u8 = b'\n';

/// Puts so many spaces at the end of a line.
fn push_spaces(line: &mut Vec<u8>, count: usize) -> Result<(), AllocError>
    ensures { OnOk result (line.new.items ≡ line.old.items ++ replicate count 32) }
{
    for _place in 0..count {
        line.push(SPACE)?;
    }
    Ok(())
}

/// Puts a text at the end of a line, right in its column.
pub(crate) fn push_right(line: &mut Vec<u8>, width: usize, text: &[u8]) -> Result<(), AllocError>
    ensures { OnOk result (line.new.items ≡ line.old.items ++ right width text.now) }
{
    push_spaces(line, width.saturating_sub(text.len()))?;
    line.extend_from_slice(text)?;
    Ok(())
}

/// Puts a text at the end of a line, left in its column.
pub(crate) fn push_left(line: &mut Vec<u8>, width: usize, text: &[u8]) -> Result<(), AllocError>
    ensures { OnOk result (line.new.items ≡ line.old.items ++ left width text.now) }
{
    line.extend_from_slice(text)?;
    push_spaces(line, width.saturating_sub(text.len()))
}

/// Puts a number at the end of a line, right in its column.
pub(crate) fn push_number(line: &mut Vec<u8>, width: usize, number: u64) -> Result<(), AllocError>
    ensures { OnOk result (line.new.items ≡ line.old.items ++ right width (spelled number)) }
{
    let mut buffer = Buffer::new();
    push_right(line, width, buffer.format(number).as_bytes())
}
