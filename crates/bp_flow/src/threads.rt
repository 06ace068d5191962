//! That a solver crosses threads.
use crate::Solver;

fn moves<T: Send>() {}

fn is_shared<T: Sync>() {}

/// A solver moves between threads, and threads share it. It does nothing: that it is proved says so.
pub fn solver_crosses_threads() {
    moves::<Solver>();
    is_shared::<Solver>();
}
