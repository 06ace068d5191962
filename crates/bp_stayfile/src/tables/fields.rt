//! What stands in a field: spaces at its ends, numbers and codes.
ghost use Rattle.std.specs.Prelude.{◌≡◌, if◌then◌else◌, ◌≤◌, Some, None, length, reverse};
ghost use Rattle.std.specs.List.{list_all};
ghost use Rattle.std.specs.Str.{all_ascii_digits};
ghost use Rattle.bp_hotelfile.specs.Numbers.{number};
ghost use Rattle.bp_stayfile.specs.Fields.{without_front, stripped, number_of, is_code_byte, is_code};

use bp_text::Number;
use bp_types::limits::MOST_CODE;

/// The text without the spaces at its front.
fn without_front(text: &str) -> &str
    ensures { result.now ≡ without_front text.now }
{
    let bytes = text.as_bytes();
    for place in 0..bytes.len() {
        if bytes[place] != b' ' {
            return &text[place..];
        }
    }
    ""
}

/// The text without the spaces at its end.
fn without_back(text: &str) -> &str
    ensures { result.now ≡ reverse (without_front (reverse text.now)) }
{
    let bytes = text.as_bytes();
    for spaces in 0..bytes.len() {
        if bytes[bytes.len() - 1 - spaces] != b' ' {
            return &text[..bytes.len() - spaces];
        }
    }
    ""
}

/// The text without the spaces at its ends.
pub(crate) fn stripped(text: &str) -> &str
    ensures { result.now ≡ stripped text.now }
{
    without_back(without_front(text))
}

/// The number that a few decimal digits write.
fn digits(bytes: &[u8]) -> Option<u64>
    requires { length bytes.now ≤ 18 }
    ensures { result ≡ (if all_ascii_digits bytes.now then Some (number bytes.now) else None) }
{
    match bp_text::digits(bytes, 999_999_999_999_999_999) {
        Number::Value(value) => Some(value as u64),
        Number::Bad => None,
        Number::Great => unreachable!(),
    }
}

/// The number that 1 to 18 decimal digits write; None of any other text. Leading zeros are allowed.
pub fn number_of(text: &str) -> Option<u64>
    ensures { result ≡ number_of text.now }
{
    if text.is_empty() || text.len() > 18 {
        return None;
    }
    digits(text.as_bytes())
}

/// A letter or digit of ASCII, a dot, an underscore or a dash.
fn is_code_byte(byte: u8) -> bool
    ensures { result ≡ is_code_byte byte }
{
    matches!(byte, b'A'..=b'Z' | b'a'..=b'z' | b'0'..=b'9' | b'.' | b'_' | b'-')
}

/// Whether each byte is one of these.
fn are_code_bytes(bytes: &[u8]) -> bool
    ensures { result ≡ list_all is_code_byte bytes.now }
{
    bytes.iter().all(|byte| is_code_byte(*byte))
}

/// Whether a text may be a stay's code: 1 to `MOST_CODE` letters of ASCII, digits, dots, underscores and dashes.
pub fn is_code(text: &str) -> bool
    ensures { result ≡ is_code text.now }
{
    1 <= text.len() && text.len() <= MOST_CODE && are_code_bytes(text.as_bytes())
}
