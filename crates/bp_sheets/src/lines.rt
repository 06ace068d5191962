//! The lines of a sheet.
ghost use Rattle.std.specs.Prelude.{◌≡◌, ◌++◌, ◌∷◌, [], ◌<◌, length, OnOk};
ghost use Rattle.bp_text.specs.Numbers.{spelled};
ghost use Rattle.bp_text.specs.Lines.{text_of};
ghost use Rattle.bp_sheets.specs.Sheets.{night_line, arrival_line, amount_text, least_text};

use crate::band::Band;
use bp_text::{push_number, push_numbers};
use std::alloc::AllocError;

/// Puts a word and a number at the end of a text.
fn push_named(text: &mut Vec<u8>, name: &[u8], number: u128) -> Result<(), AllocError>
    ensures { OnOk result (text.new.items ≡ text.old.items ++ (name.now ++ spelled number)) }
{
    text.extend_from_slice(name)?;
    push_number(text, number)
}

/// Puts an amount of money at the end of a text, or a dash where there is none.
fn push_amount(text: &mut Vec<u8>, name: &[u8], amount: Option<u128>) -> Result<(), AllocError>
    ensures { OnOk result (text.new.items ≡ text.old.items ++ (name.now ++ amount_text amount)) }
{
    match amount {
        Some(number) => push_named(text, name, number),
        None => {
            text.extend_from_slice(name)?;
            text.push(b'-')?;
            Ok(())
        }
    }
}

/// Puts the line of a night at the end of a text.
pub(crate) fn push_night(text: &mut Vec<u8>, night: u32, band: Band) -> Result<(), AllocError>
    ensures { OnOk result (text.new.items ≡ text.old.items ++ text_of (night_line night band ∷ [])) }
{
    push_named(text, b"night ", u128::from(night))?;
    push_named(text, b" price ", u128::from(band.price))?;
    push_amount(text, b" gain ", band.gain)?;
    push_amount(text, b" loss ", band.loss)?;
    text.push(b'\n')?;
    Ok(())
}

/// Puts the line of an arrival at the end of a text.
pub(crate) fn push_arrival(
    text: &mut Vec<u8>,
    night: u32,
    least: Option<u32>,
    hurdles: &[u64],
) -> Result<(), AllocError>
    ensures { OnOk result (text.new.items ≡ text.old.items ++ text_of (arrival_line night least hurdles.now ∷ [])) }
{
    push_named(text, b"arrival ", u128::from(night))?;
    push_least(text, least)?;
    text.extend_from_slice(b" hurdles")?;
    push_numbers(text, hurdles)?;
    text.push(b'\n')?;
    Ok(())
}

/// Puts the least length of an arrival at the end of a text.
fn push_least(text: &mut Vec<u8>, least: Option<u32>) -> Result<(), AllocError>
    ensures { OnOk result (text.new.items ≡ text.old.items ++ least_text least) }
{
    match least {
        Some(nights) => push_named(text, b" least ", u128::from(nights)),
        None => Ok(text.extend_from_slice(b" closed")?),
    }
}
