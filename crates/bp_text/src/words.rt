//! The words of a line, one by one.
ghost use Rattle.std.specs.Prelude.{◌≡◌, ◌≢◌, ℕ, ◌<◌, ◌≤◌, ◌∷◌, [], MatchOption, List};
ghost use Rattle.bp_text.specs.Numbers.{spelled};
ghost use Rattle.bp_text.specs.Words.{Word, split, IsCounted};

use crate::cursor::length_to;
use crate::decimal::number;
use crate::found::Number;
use crate::numbers::SPACE;
use std::marker::Model;

/// The words of a line, apart by one space each, given one by one.
///
/// Contracts see the words that were not given yet. A line has one word more than spaces, so a space at an end or
/// beside another stands next to an empty word.
#[derive(Drop)]
pub struct Words<'a> {
    text: &'a [u8],
    done: bool,
}

impl<'a> Model for Words<'a> {
    ghost use Rattle.std.specs.Prelude.{List, if◌then◌else◌, []};
    ghost use Rattle.bp_text.specs.Words.{Word, split};

    ghost Value = { List Word };

    ghost view = { λ w. if w.done then [] else split w.text.now };
}

/// A number among words: this one, or one that is greater than it may be.
#[derive(Clone, Copy, Debug)]
pub struct Counted {
    /// The number, or some number up to the greatest.
    pub value: u128,
    /// The number is above the greatest.
    pub great: bool,
}

impl<'a> Words<'a> {
    /// The words of a line, none of them given.
    pub fn new(line: &'a [u8]) -> Words<'a>
        ensures { result ≡ split line.now }
    {
        Words {
            text: line,
            done: false,
        }
    }

    /// The next word; None where each was given. It takes the time of the word.
    pub fn next(&mut self) -> Option<&'a [u8]>
        ensures { MatchOption result ((self.old ≡ []) × (self.new ≡ [])) (λ w. self.old ≡ w.now ∷ self.new) }
    {
        if self.done {
            return None;
        }
        let text = self.text;
        let (word, more) = text.split_at(length_to(text, SPACE));
        if more.is_empty() {
            self.done = true;
            return Some(word);
        }
        self.text = &more[1..];
        Some(word)
    }

    /// The next word as a number; None where there is none, or it is no number.
    ///
    /// A number that is too great is passed over, since the form of a line is judged before its limits.
    pub fn number(&mut self, greatest: u128) -> Option<Counted>
        ensures { MatchOption result
            ((n : ℕ) (more : List Word) → self.old ≢ spelled n ∷ more)
            (λ r. (n : ℕ) × (self.old ≡ spelled n ∷ self.new) × IsCounted greatest n r) }
    {
        let word = self.next()?;
        match number(word, greatest) {
            Number::Bad => None,
            Number::Great => Some(Counted {
                value: 0,
                great: true,
            }),
            Number::Value(value) => Some(Counted {
                value,
                great: false,
            }),
        }
    }
}
