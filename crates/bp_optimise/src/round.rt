//! What a round of an optimiser did.
ghost use Rattle.std.specs.Prelude.{◌≡◌, Some};
ghost use Rattle.bp_desk.specs.Typed.{publish_answer};
ghost use Rattle.bp_optimise.specs.Rounds.{answer_of, is_superseded, found_none_left};

use bp_desk::PublishStop;

/// What a round did. Changes are counted after the last vector's position, vectors from 0.
#[derive(Clone, Copy, Debug, PartialEq, Eq)]
pub enum Round {
    /// So many changes stood there at its first turn, fewer than were asked for. Nothing was published.
    Unchanged { changes: u64 },
    /// A board with the least prices at the optimiser's position was published, as the vector of this number.
    Published { number: u64 },
    /// Somebody else's vector came first: from its position to the board's own so many changes stand, too few.
    Superseded { position: u64, changes: u64 },
    /// As many vectors as the limits allow are published.
    PublicationsFull,
}

impl Round {
    /// Whether somebody else's vector came first.
    pub(crate) fn is_superseded(self) -> bool
        ensures { result ≡ is_superseded self }
    {
        matches!(self, Round::Superseded { .. })
    }

    /// Whether as many vectors as the limits allow are published.
    pub(crate) fn found_none_left(self) -> bool
        ensures { result ≡ found_none_left self }
    {
        matches!(self, Round::PublicationsFull)
    }
}

/// The round whose board was answered so.
pub(crate) fn round_of(answer: Result<u64, PublishStop>) -> Round
    ensures { answer_of result ≡ Some (publish_answer answer) }
{
    match answer {
        Ok(number) => Round::Published { number },
        Err(PublishStop::Superseded { position, changes }) => {
            Round::Superseded { position, changes }
        }
        Err(PublishStop::PublicationsFull) => Round::PublicationsFull,
    }
}
