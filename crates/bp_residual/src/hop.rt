//! A hop: one arc of the network, in one direction.

/// An arc of the network, forward or backward. It is residual where it has room: forward for what the arc may still
/// carry, backward for what it carries.
#[derive(Clone, Copy, Debug, PartialEq, Eq)]
pub struct Hop {
    /// The arc by its number: the stays from 0, and then a free arc for each night.
    pub arc: u32,
    /// Whether it goes from the tail of the arc to its head.
    pub forward: bool,
}
