//! What a judge says: legal, or the first place and the first rule that is broken there.
use bp_core::Book;

/// Why a line may not stand at its place, in the order in which the rules are asked.
#[derive(Clone, Copy, Debug, PartialEq, Eq)]
pub enum Cause {
    /// The first line is not the opener's vector at position 0, or there is no line.
    Opening,
    /// Its caller may not have this entry next.
    Caller,
    /// A number of it is outside its limit.
    Range,
    /// As many commands, or vectors, as the house allows stand before it.
    Limit,
    /// A booking with too many changes since the last vector's position.
    Behind,
    /// A vector for a position to come, or with no change since the last one's.
    Position,
    /// A vector that does not certify the optimum at its position, or a certificate where no vector is.
    Certificate,
    /// Another reply than that of its moment.
    Reply,
}

/// What a judge finds.
#[derive(Drop)]
pub enum Judgement {
    /// The book whose history this is.
    Legal(Book),
    /// The first place that breaks a rule, and the first rule that it breaks.
    NotLegal { place: u64, cause: Cause },
}
