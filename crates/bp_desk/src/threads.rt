//! That a desk is shared between threads, and that its passes cross them.
use crate::desk::Desk;
use crate::pass::{Left, Pass};

/// That values of the type may move to another thread: asked for, and nothing else.
fn moves<T: Send>() {}

/// That threads may share values of the type, too.
fn is_shared<T: Send + Sync>() {}

/// A desk is shared between threads, and what calls at it moves between them. It does nothing: that it is proved says
/// so.
pub fn desk_crosses_threads() {
    is_shared::<Desk>();
    moves::<Pass>();
    moves::<Left>();
}
