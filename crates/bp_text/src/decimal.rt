//! Decimal digits, one by one: a loop for the few of nearly every number, and one for any.
ghost use Rattle.std.specs.Prelude.{◌≡◌, ◌≢◌, ℕ, ◌+◌, ◌*◌, ◌<◌, ◌≤◌, length};
ghost use Rattle.std.specs.Option.{ForSome, SomeIff};
ghost use Rattle.bp_text.specs.Numbers.{IsReadAs, AreReadAs, IsGreaterBy};

use crate::found::Number;

/// So many digits are below 10^18, and one more fits a machine word.
const FEW: usize = 18;

/// Reads a word as a number up to a greatest one.
#[tactic(auto, using(crate::proofs::NumberLemmas::zero_before, crate::proofs::NumberLemmas::nothing_is_no_number))]
pub fn number(word: &[u8], greatest: u128) -> Number
    ensures { IsReadAs word.now greatest result }
{
    if word.is_empty() {
        return Number::Bad;
    }
    if word.len() > 1 && word[0] == b'0' {
        return Number::Bad;
    }
    digits(word, greatest)
}

/// Reads decimal digits as a number up to a greatest one; no digits are 0. Zeros may stand in front.
pub fn digits(bytes: &[u8], greatest: u128) -> Number
    ensures { AreReadAs bytes.now greatest result }
{
    if bytes.len() <= FEW {
        few_digits(bytes, greatest)
    } else {
        many_digits(bytes, greatest)
    }
}

/// Reads so few digits that their number is a machine word, whatever they are.
fn few_digits(bytes: &[u8], greatest: u128) -> Number
    requires { length bytes.now ≤ 18 }
    ensures { AreReadAs bytes.now greatest result }
{
    let mut value: u64 = 0;
    for byte in bytes {
        if *byte < b'0' || *byte > b'9' {
            return Number::Bad;
        }
        value = value * 10 + u64::from(*byte - b'0');
    }
    let value = u128::from(value);
    if value > greatest {
        return Number::Great;
    }
    Number::Value(value)
}

/// Reads as many digits as there are.
fn many_digits(bytes: &[u8], greatest: u128) -> Number
    ensures { AreReadAs bytes.now greatest result }
{
    let mut value = Some(0);
    for byte in bytes {
        if *byte < b'0' || *byte > b'9' {
            return Number::Bad;
        }
        value = with_digit(value, u128::from(*byte - b'0'), greatest);
    }
    match value {
        Some(value) => Number::Value(value),
        None => Number::Great,
    }
}

/// The number with one digit more behind it, where it is not above the greatest.
fn with_digit(value: Option<u128>, digit: u128, greatest: u128) -> Option<u128>
    requires digit { digit < 10 }
    ensures { IsGreaterBy value digit greatest result }
{
    let value = value?;
    if value > greatest / 10 {
        return None;
    }
    let tenfold = value * 10;
    if digit > greatest - tenfold {
        return None;
    }
    Some(tenfold + digit)
}
