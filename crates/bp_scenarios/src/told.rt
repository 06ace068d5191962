//! A change as the words of its line tell it.
ghost use Rattle.std.specs.Prelude.{
  ◌≡◌,
  ℕ,
  ◌<◌,
  ◌≤◌,
  ◌∷◌,
  ◌||◌,
  nat_le,
  nat_lt,
  if◌then◌else◌,
  Bool,
  List,
  MatchOption,
  codes,
};
ghost use Rattle.bp_text.specs.Numbers.{spelled};
ghost use Rattle.bp_text.specs.Words.{Word, IsCounted};
ghost use Rattle.bp_scenarios.specs.declared.told.Found.TheVariants.{Great, Whole};
ghost use Rattle.bp_scenarios.specs.Refused.{IsChangeOf};
ghost use Rattle.bp_scenarios.specs.Texts.{direction};
ghost use Rattle.bp_scenarios.specs.Rows.{IsBehind, AreTold, IsFound};

use bp_text::{Counted, Words};
use bp_types::limits::{MOST_FORECAST, MOST_RATE, MOST_ROOMS};
use bp_types::{Change, Span};

/// The rooms of a change, at most.
const ROOMS: u128 = MOST_ROOMS as u128;

/// How many nights and stays a problem has.
#[derive(Clone, Copy, Debug)]
pub(crate) struct Size {
    pub(crate) nights: u32,
    pub(crate) stays: u32,
}

/// A change as its words tell it, and whether it is outside the limits; then nothing else counts.
#[derive(Clone, Copy, Debug)]
pub(crate) struct Told {
    pub(crate) change: Change,
    pub(crate) great: bool,
}

/// What is found on a line that may be a change's.
#[derive(Clone, Copy, Debug)]
pub(crate) enum Found {
    /// It is none.
    Bad,
    /// It is one, outside the limits.
    Great,
    /// It is this one.
    Whole(Change),
}

/// What is found on a line that may be a change's.
pub(crate) fn change_line(line: &[u8], size: Size) -> Found
    ensures { IsFound (IsChangeOf size.nights size.stays) line.now result }
{
    let mut words = Words::new(line);
    match all_words(&mut words, size) {
        None => Found::Bad,
        Some(told) => judged(told),
    }
}

/// The change that was told, unless it is outside the limits.
fn judged(told: Told) -> Found
    ensures { result ≡ (if told.great then Great else Whole told.change) }
{
    if told.great {
        Found::Great
    } else {
        Found::Whole(told.change)
    }
}

/// The change that the words tell, where none is left behind it.
fn all_words(words: &mut Words<'_>, size: Size) -> Option<Told>
    ensures { AreTold (IsChangeOf size.nights size.stays) words.old result }
{
    let Some(word) = words.next() else {
        return None;
    };
    let Some(told) = behind(words, word, size) else {
        return None;
    };
    match words.next() {
        None => Some(told),
        Some(_) => None,
    }
}

/// The change that stands behind its word.
fn behind(words: &mut Words<'_>, word: &[u8], size: Size) -> Option<Told>
    ensures { IsBehind (IsChangeOf size.nights size.stays) word.now words.old words.new result }
{
    if word == b"rooms".as_slice() {
        return rooms(words, size);
    }
    if word == b"demand".as_slice() {
        return demand(words, size);
    }
    if word == b"rate".as_slice() {
        return rate(words, size);
    }
    None
}

/// What stands behind the word of a change of rooms.
fn rooms(words: &mut Words<'_>, size: Size) -> Option<Told>
    ensures { IsBehind (IsChangeOf size.nights size.stays) (codes "rooms") words.old words.new result }
{
    let Some((from, to)) = two(words, size.nights, u64::from(size.nights)) else {
        return None;
    };
    let Some(up) = is_up(words) else {
        return None;
    };
    match words.number(ROOMS) {
        None => None,
        Some(units) => {
            let great = is_no_move(from, to, units);
            let span = Span {
                from: from.value as u32,
                to: to.value as u32,
            };
            let units = units.value as u64;
            let change = Change::Rooms { span, up, units };
            Some(Told { change, great })
        }
    }
}

/// Whether rooms get more or fewer; None where the next word does not say so.
fn is_up(words: &mut Words<'_>) -> Option<bool>
    ensures { MatchOption result
        ((up : Bool) (more : List Word) → words.old ≡ direction up ∷ more → ⊥)
        (λ up. words.old ≡ direction up ∷ words.new) }
{
    let Some(word) = words.next() else {
        return None;
    };
    if word == b"up".as_slice() {
        return Some(true);
    }
    if word == b"down".as_slice() {
        return Some(false);
    }
    None
}

/// Whether these are no nights in order, or no rooms that may be asked about.
fn is_no_move(from: Counted, to: Counted, units: Counted) -> bool
    ensures { result ≡ ((from.great || to.great) ||
        (units.great || (nat_le to.value from.value || nat_lt units.value 1))) }
{
    (from.great || to.great) || (units.great || (to.value <= from.value || units.value < 1))
}

/// What stands behind the word of a change of a forecast.
fn demand(words: &mut Words<'_>, size: Size) -> Option<Told>
    ensures { IsBehind (IsChangeOf size.nights size.stays) (codes "demand") words.old words.new result }
{
    match two(words, size.stays, MOST_FORECAST) {
        None => None,
        Some((stay, forecast)) => {
            let great = either(is_no_stay(stay, size.stays), forecast.great);
            let change = Change::Demand {
                stay: stay.value as u32,
                value: forecast.value as u64,
            };
            Some(Told { change, great })
        }
    }
}

/// What stands behind the word of a change of a rate.
fn rate(words: &mut Words<'_>, size: Size) -> Option<Told>
    ensures { IsBehind (IsChangeOf size.nights size.stays) (codes "rate") words.old words.new result }
{
    match two(words, size.stays, MOST_RATE) {
        None => None,
        Some((stay, rate)) => {
            let great = either(is_no_stay(stay, size.stays), is_no_rate(rate));
            let change = Change::Rate {
                stay: stay.value as u32,
                value: rate.value as u64,
            };
            Some(Told { change, great })
        }
    }
}

/// Whether there is no such stay among so many.
fn is_no_stay(stay: Counted, stays: u32) -> bool
    ensures { result ≡ (stay.great || nat_le stays stay.value) }
{
    stay.great || u128::from(stays) <= stay.value
}

/// Whether one of two holds.
fn either(first: bool, second: bool) -> bool
    ensures { result ≡ (first || second) }
{
    first || second
}

/// Whether this is no rate.
fn is_no_rate(rate: Counted) -> bool
    ensures { result ≡ (rate.great || nat_lt rate.value 1) }
{
    rate.great || rate.value < 1
}

/// The next two words as numbers, each up to a greatest one; None where they are not both numbers.
fn two(words: &mut Words<'_>, first: u32, second: u64) -> Option<(Counted, Counted)>
    ensures { MatchOption result
        ((m n : ℕ) (more : List Word) → words.old ≡ spelled m ∷ spelled n ∷ more → ⊥)
        (λ r. (m : ℕ) × (n : ℕ) × (words.old ≡ spelled m ∷ spelled n ∷ words.new) × IsCounted first m r.0 ×
        IsCounted second n r.1) }
{
    let Some(one) = words.number(u128::from(first)) else {
        return None;
    };
    match words.number(u128::from(second)) {
        None => None,
        Some(other) => Some((one, other)),
    }
}
