//! The statuses that a call of the program ends with.
ghost use Rattle.std.specs.Prelude.{◌≡◌};
ghost use Rattle.bp_run.specs.Statuses.{status_number};

/// How a call of the program ends, as its caller tells it apart. Each has a number of its own.
#[derive(Clone, Copy, Debug, PartialEq, Eq)]
pub enum Status {
    /// The answer was written; a certificate that was checked is optimal, and a journal that was judged is legal.
    Done = 0,
    /// A certificate was checked and is not optimal, or a journal was judged and is not legal.
    Wrong = 1,
    /// The words are no plain line.
    NotPlain = 2,
    /// A file is refused, or the nights or rooms of a group are.
    Refused = 3,
    /// The shelf failed.
    Fault = 4,
    /// The sink failed, and a first part of the text was written.
    CutOff = 5,
    /// There was no memory.
    NoMemory = 6,
    /// A desk ended before all its commands were done, or before its prices followed the last change.
    Unfinished = 7,
}

impl Status {
    /// The number that the system gets.
    pub fn number(self) -> u8
        ensures { result ≡ status_number self }
    {
        self as u8
    }
}
