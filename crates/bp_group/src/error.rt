//! Why there is no quote.
ghost use Rattle.std.specs.Prelude.{◌≡◌};
ghost use Rattle.bp_group.specs.declared.error.QuoteError.TheVariants.{Memory as NoMemory};

use bp_types::Memory;
use thiserror::Error;

/// Why there is no quote.
#[derive(Clone, Copy, Debug, PartialEq, Eq, Error)]
pub enum QuoteError {
    /// This night is the first of the span with fewer units than were asked for.
    #[error("night {night} lacks the rooms")]
    NoRoom { night: u32 },
    /// No memory was found.
    #[error("out of memory")]
    Memory,
}

impl From<Memory> for QuoteError {
    ghost from_gives = { λ _ e. e ≡ NoMemory };

    fn from(_error: Memory) -> QuoteError {
        QuoteError::Memory
    }
}
