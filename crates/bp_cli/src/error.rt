//! Why words ask for nothing.

/// Why words ask for nothing.
#[derive(Clone, Copy, Debug, PartialEq, Eq, Drop)]
pub enum WordsError {
    /// The words are no plain line.
    Usage,
    /// No memory was left. Nothing is said of the words.
    Memory,
}
