//! A line of a text of scenarios.
use bp_types::Change;

/// A line between the first one of a text of scenarios and the last one.
#[derive(Clone, Copy, Debug)]
pub(crate) enum Row {
    /// A scenario begins.
    Opens,
    /// The scenario goes on with this change.
    Makes(Change),
}
