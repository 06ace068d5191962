//! What is found on a line that may be an entry's.
use bp_core::Entry;

/// What is found on a line that may be an entry's.
#[derive(Clone, Copy, Debug)]
pub(crate) enum Found {
    /// It is none.
    Bad,
    /// It is one, with a number above its limit.
    Great,
    /// It is this one.
    Whole(Entry),
}
