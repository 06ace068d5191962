//! How great the numbers of a journal may be.

/// A caller, a stay, a night, or an end of a span, at most.
pub(crate) const MOST_HALF: u128 = 4_294_967_295;

/// Any other number, at most.
pub(crate) const MOST_NUMBER: u128 = 18_446_744_073_709_551_615;
