//! The quote of a group, with the certificates that show it.
ghost use Rattle.std.specs.Prelude.{◌≡◌};

use bp_types::{Certificate, Quoted, Span};

/// What a group costs, as of a position of a history, with the certificates that show it.
#[derive(Debug, Drop)]
pub struct GroupQuote {
    /// How many entries of the history the quote knows.
    pub position: u64,
    /// The nights of the group.
    pub span: Span,
    /// Its rooms on each of them, in units.
    pub rooms: u64,
    /// By how much the optimum falls, in minor units of money, times the unit of the house.
    pub displacement: u128,
    /// The optimum of the instance, with its least prices.
    pub before: Certificate,
    /// The optimum of the instance without the group's rooms, with its least prices.
    pub after: Certificate,
}

impl GroupQuote {
    /// The position and the displacement.
    pub fn quoted(&self) -> Quoted
        ensures position { result.position ≡ self.now.position }
        ensures displacement { result.displacement ≡ self.now.displacement }
    {
        Quoted {
            position: self.position,
            displacement: self.displacement,
        }
    }
}
