//! The two versions of a journal's text.

/// Which version a journal's text is of.
#[derive(Clone, Copy, Debug, PartialEq, Eq)]
pub enum Version {
    /// The older one, which has no Reprice. It is read and not written.
    One,
    /// The one that is written.
    Two,
}
