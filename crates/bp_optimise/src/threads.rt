//! What may move between threads.
use crate::Optimiser;

/// That values of the type may move to another thread: asked for, and nothing else.
fn moves<T: Send>() {}

/// An optimiser moves between threads. It does nothing: that it is proved says so.
pub fn optimiser_crosses_threads() {
    moves::<Optimiser>();
}
