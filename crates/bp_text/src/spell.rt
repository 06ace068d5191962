//! Numbers and lines, put at the end of a text. The one error of each call is want of memory.
ghost use Rattle.std.specs.Prelude.{◌≡◌, ◌++◌, ◌∷◌, [], OnOk};
ghost use Rattle.bp_text.specs.Numbers.{spelled};
ghost use Rattle.bp_text.specs.Lines.{line_of, numbers_text, text_of};

use crate::cursor::LINE_END;
use crate::numbers::SPACE;
use crate::spaced::{MOST_SPACED, spell_spaced};
use itoa::Buffer;
use std::alloc::AllocError;

/// Puts a number at the end of a text.
pub fn push_number(text: &mut Vec<u8>, number: u128) -> Result<(), AllocError>
    ensures { OnOk result (text.new.items ≡ text.old.items ++ spelled number) }
{
    let mut buffer = Buffer::new();
    text.extend_from_slice(buffer.format(number).as_bytes())?;
    Ok(())
}

/// Puts numbers at the end of a text, each behind one space.
pub fn push_numbers(text: &mut Vec<u8>, numbers: &[u64]) -> Result<(), AllocError>
    ensures { OnOk result (text.new.items ≡ text.old.items ++ numbers_text numbers.now) }
{
    let mut bytes = [SPACE; MOST_SPACED];
    for number in numbers {
        let start = spell_spaced(*number, &mut bytes);
        text.extend_from_slice(&bytes[start..])?;
    }
    Ok(())
}

/// Puts a line of a word and numbers at the end of a text, with its end.
pub fn push_line(text: &mut Vec<u8>, word: &[u8], numbers: &[u64]) -> Result<(), AllocError>
    ensures { OnOk result (text.new.items ≡ text.old.items ++ text_of (line_of word.now numbers.now ∷ [])) }
{
    text.extend_from_slice(word)?;
    push_numbers(text, numbers)?;
    text.push(LINE_END)?;
    Ok(())
}

/// Puts a line of a word and one wide number at the end of a text, with its end.
pub fn push_wide_line(text: &mut Vec<u8>, word: &[u8], number: u128) -> Result<(), AllocError>
    ensures { OnOk result (text.new.items ≡ text.old.items ++ text_of (line_of word.now (number ∷ []) ∷ [])) }
{
    text.extend_from_slice(word)?;
    text.push(SPACE)?;
    push_number(text, number)?;
    text.push(LINE_END)?;
    Ok(())
}
