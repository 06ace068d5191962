//! A number behind one space, spelt in place: lines have thousands of them.
ghost use Rattle.std.specs.Prelude.{◌≡◌, ◌≤◌, ◌∷◌, drop};
ghost use Rattle.bp_text.specs.Numbers.{spelled};

use crate::numbers::SPACE;
use itoa::write_digits;

/// One space and the digits of the greatest machine word.
pub(crate) const MOST_SPACED: usize = 21;

/// Spells a number behind one space so that it ends with the bytes, and answers where it begins.
pub(crate) fn spell_spaced(number: u64, bytes: &mut [u8; MOST_SPACED]) -> usize
    ensures spelled { drop result bytes.new ≡ 32 ∷ spelled number }
    ensures within { result ≤ 21 }
{
    *bytes = [SPACE; MOST_SPACED];
    let start = write_digits(number, bytes, MOST_SPACED);
    start - 1
}
