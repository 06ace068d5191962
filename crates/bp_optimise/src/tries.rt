//! What becomes of a command of a session.

/// What became of a command of a session.
#[derive(Clone, Copy, Debug, PartialEq, Eq)]
pub(crate) enum Outcome {
    /// It was logged.
    Made,
    /// As many commands as the limits allow are logged.
    HistoryFull,
    /// A Book needs a new vector, and as many as the limits allow are published.
    PublicationsFull,
    /// A round or a quote found no memory.
    Memory,
}

/// What became of one try of a command.
#[derive(Clone, Copy, Debug, PartialEq, Eq)]
pub(crate) enum Attempt {
    /// There is no other try: the command is made, or cannot be.
    Ended { outcome: Outcome },
    /// Nothing was logged. `full` says that a round found no vector left.
    Again { full: bool },
}
