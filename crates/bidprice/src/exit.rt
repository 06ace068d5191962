//! The status that the program ends with.
ghost use Rattle.std.specs.Prelude.{◌≡◌};
ghost use Rattle.std.specs.Process.{exit_status};
ghost use Rattle.bidprice.specs.Exits.{IsExit};

use std::process::{ExitCode, Termination};

/// What `main` returns: a number that is the status of a line of words that was served, or of words that the system did
/// not give.
#[derive(Clone, Copy, Debug)]
pub struct Exit {
    /// The status, as the system gets it.
    pub number: u8,
    ghost ended: { ∥ IsExit number ∥₁ },
}

impl Termination for Exit {
    fn report<R: Eprint>(self, _rt: &R) -> ExitCode
        ensures { exit_status result ≡ self.number }
    {
        ExitCode::from(self.number)
    }
}
