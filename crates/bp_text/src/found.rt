//! What is found in bytes that may be numbers.

/// What is read of a word that may be a number.
#[derive(Clone, Copy, Debug, PartialEq, Eq)]
pub enum Number {
    /// The word is no number: not `0`, and no digit from 1 on followed by digits.
    Bad,
    /// It is a number above the greatest one.
    Great,
    /// It is this number.
    Value(u128),
}

/// What is found of the numbers behind a word.
#[derive(Clone, Copy, Debug, PartialEq, Eq)]
pub(crate) enum Found {
    /// The bytes are no numbers, each behind one space.
    Bad,
    /// So many numbers, of which some are above the greatest, or more than there may be.
    Great { count: u64 },
    /// Numbers within the limits.
    Whole,
}

/// What limits the numbers of a line.
#[derive(Clone, Copy, Debug)]
pub struct Bounds {
    /// How many there may be.
    pub most: usize,
    /// The greatest that each may be.
    pub greatest: u64,
}
