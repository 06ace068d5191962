//! An act and a reply as their words tell them.
use bp_core::{Act, Reply};

/// An act as its words tell it, and whether a number of it is above its limit; then only its word counts.
#[derive(Clone, Copy, Debug)]
pub(crate) struct ToldAct {
    pub(crate) act: Act,
    pub(crate) great: bool,
}

/// A reply as its words tell it, and whether a number of it is above its limit.
#[derive(Clone, Copy, Debug)]
pub(crate) struct ToldReply {
    pub(crate) reply: Reply,
    pub(crate) great: bool,
}
