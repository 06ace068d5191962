//! An arc of the network, as it is shown.

/// An arc of the network, with what it carries.
#[derive(Clone, Copy, Debug, PartialEq, Eq)]
pub struct ArcView {
    /// The node that the arc leaves.
    pub tail: u32,
    /// The node that it reaches.
    pub head: u32,
    /// What a unit over the arc costs, in minor units of money: a stay's rate, negative; 0 for a free arc.
    pub cost: i64,
    /// How many units the arc may carry; None where it has no limit.
    pub room: Option<u64>,
    /// How many units the arc carries.
    pub flow: u64,
}
