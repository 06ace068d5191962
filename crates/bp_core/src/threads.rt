//! That a book crosses threads.
use crate::{Answer, Book, Call, Entry, Line, Made};

/// That values of the type may move to another thread: asked for, and nothing else.
fn moves<T: Send>() {}

/// A book moves between threads, and so does what goes into it and comes out. It does nothing: that it is proved says
/// so.
pub fn book_crosses_threads() {
    moves::<Book>();
    moves::<Line>();
    moves::<Entry>();
    moves::<Call>();
    moves::<Made>();
    moves::<Answer>();
}
