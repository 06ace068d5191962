//! The numbers behind a word on a line, found from left to right.
ghost use Rattle.std.specs.Prelude.{
  ◌≡◌,
  ◌≢◌,
  ℕ,
  ◌+◌,
  ◌<◌,
  ◌≤◌,
  ◌++◌,
  ◌∷◌,
  [],
  List,
  length,
  slice_index,
  MatchOption,
  IfOk,
  OnOk,
};
ghost use Rattle.bp_text.specs.Lines.{line_of, numbers_text};
ghost use Rattle.bp_text.specs.Forms.{IsFound, IsWordAhead, IsKept};

use crate::cursor::length_to;
use crate::decimal::number;
use crate::found::{Bounds, Found, Number};
use std::alloc::AllocError;

/// The byte between two words of a line.
pub(crate) const SPACE: u8 = b' ';

/// The numbers behind a word on a line, put in place of what `into` has. It takes the time of the line; the one error
/// is want of memory.
pub(crate) fn numbers_behind(
    word: &[u8],
    line: &[u8],
    bounds: Bounds,
    into: &mut Vec<u64>,
) -> Result<Found, AllocError>
    ensures { IfOk result (IsFound (line_of word.now) line.now bounds into.new.items) }
{
    match behind(word, line) {
        None => Ok(Found::Bad),
        Some(text) => numbers(text, bounds, into),
    }
}

/// What stands behind a word, where the line begins with it.
pub(crate) fn behind<'a>(word: &[u8], line: &'a [u8]) -> Option<&'a [u8]>
    ensures { MatchOption result ((rest : List ℕ) →
        line.now ≢ word.now ++ rest) (λ rest. line.now ≡ word.now ++ rest.now) }
{
    line.strip_prefix(word)
}

/// The numbers that a text spells, each behind one space.
fn numbers(text: &[u8], bounds: Bounds, into: &mut Vec<u64>) -> Result<Found, AllocError>
    ensures { IfOk result (IsFound numbers_text text.now bounds into.new.items) }
{
    into.clear();
    let mut rest = text;
    let mut count: u64 = 0;
    while !rest.is_empty() {
        let Some((word, more)) = next_word(rest) else {
            return Ok(Found::Bad);
        };
        match number(word, u128::from(bounds.greatest)) {
            Number::Bad => return Ok(Found::Bad),
            Number::Great => {}
            Number::Value(value) => keep(value as u64, bounds, into)?,
        }
        count += 1;
        rest = more;
    }
    if count == into.len() as u64 {
        Ok(Found::Whole)
    } else {
        Ok(Found::Great { count })
    }
}

/// Puts a number behind the others, where there is room for one more.
fn keep(value: u64, bounds: Bounds, into: &mut Vec<u64>) -> Result<(), AllocError>
    ensures { OnOk result (IsKept bounds value into.old.items into.new.items) }
{
    if into.len() < bounds.most {
        into.push(value)?;
    }
    Ok(())
}

/// The word behind a space, and what stands behind the word.
fn next_word(text: &[u8]) -> Option<(&[u8], &[u8])>
    requires { 0 < length text.now }
    ensures { MatchOption result (slice_index text.now 0 ≢ 32) (λ p. IsWordAhead text.now p.0.now p.1.now) }
{
    if text[0] != SPACE {
        return None;
    }
    let (_, ahead) = text.split_at(1);
    Some(ahead.split_at(length_to(ahead, SPACE)))
}
