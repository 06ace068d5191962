//! The lines of a text, one by one.
ghost use Rattle.std.specs.Prelude.{◌≡◌, ◌≢◌, ℕ, ◌+◌, ◌^◌, ◌<◌, ◌≤◌, ◌++◌, ◌∷◌, length, slice_index, MatchOption};
ghost use Rattle.bp_text.specs.Lines.{Given, HasNoEnd, GivesLine};

use std::marker::Model;

/// The byte that ends each line.
pub(crate) const LINE_END: u8 = 10;

/// The lines of a text, given one by one.
///
/// Contracts see the whole text, how many lines were given, and the rest after them.
#[derive(Debug, Drop)]
pub struct Lines<'a> {
    bytes: &'a [u8],
    rest: &'a [u8],
    given: u64,
}

impl<'a> Model for Lines<'a> {
    ghost use Rattle.std.specs.Prelude.{◌+◌, ◌≤◌, length};
    ghost use Rattle.bp_text.specs.Lines.{Given};

    ghost Value = { Given };

    ghost view = { λ l. record { bytes = l.bytes.now; given = l.given; rest = l.rest.now } };

    ghost invariant = { λ l. l.given + length l.rest.now ≤ length l.bytes.now };
}

impl<'a> Lines<'a> {
    /// The lines of this text, none of them given. It takes no memory.
    pub fn new(bytes: &'a [u8]) -> Lines<'a>
        ensures { result ≡ record { bytes = bytes.now; given = 0; rest = bytes.now } }
    {
        Lines {
            bytes,
            rest: bytes,
            given: 0,
        }
    }

    /// The next line, without its end; None where no end is left, and then nothing is given. It takes the time of the
    /// line.
    pub fn take_line(&mut self) -> Option<&'a [u8]>
        ensures { MatchOption result ((self.new ≡ self.old) ×
            HasNoEnd self.old.rest) (λ line. GivesLine self.old self.new line.now) }
    {
        let length = length_to(self.rest, LINE_END);
        if length == self.rest.len() {
            return None;
        }
        let (line, more) = self.rest.split_at(length);
        self.rest = &more[1..];
        self.given += 1;
        Some(line)
    }

    /// How many lines were given.
    pub fn given(&self) -> u64
        ensures value { result ≡ self.now.given }
        ensures small { result < 2 ^ 63 }
    {
        self.given
    }

    /// The bytes that are left after the lines that were given.
    pub fn rest(&self) -> &'a [u8]
        ensures { result.now ≡ self.now.rest }
    {
        self.rest
    }
}

/// How many bytes stand before the first `stop`, or before the end where there is none.
pub(crate) fn length_to(bytes: &[u8], stop: u8) -> usize
    ensures within { result ≤ length bytes.now }
    ensures none { (k : ℕ) → k < result → slice_index bytes.now k ≢ stop }
    ensures stop { result < length bytes.now → slice_index bytes.now result ≡ stop }
{
    for (place, byte) in bytes.iter().enumerate() {
        if *byte == stop {
            return place;
        }
    }
    bytes.len()
}
