//! What the lock of a desk guards: the book, whose history only grows.
use bp_core::{Book, Line};
use bp_turn::Story;
use bp_types::House;
use std::marker::Model;

/// The book under the lock: its house never changes, and its history only grows. Contracts see the book.
///
/// It stands in a box, so that a turn moves no more than a pointer.
#[derive(Drop)]
pub(crate) struct Shared {
    pub(crate) book: Box<Book>,
}

impl Model for Shared {
    ghost use Rattle.bp_core.specs.Acting.{Diary};

    ghost Value = { Diary };

    ghost view = { λ s. s.book.value };

    ghost invariant = { λ s. Unit {0} };
}

impl Story for Shared {
    type Fixed = House;

    type Entry = Line;

    ghost fixed = { λ s. s.house };

    ghost story = { λ s. s.history };

    ghost caller = { λ x. x.entry.caller };

    fn length(&self) -> u64 {
        self.book.length()
    }
}
