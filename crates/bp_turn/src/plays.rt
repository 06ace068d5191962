//! What each step on the table tells the seat that makes it, as types for proofs alone: no value of them is made.
ghost use Rattle.bp_turn.specs.Plays.{Drew, Called, Gave, Logged, Looked, Chose, Learnt};
ghost use Rattle.bp_turn.specs.Views.{view_less_choice, newcomer, note, spent_view, view_told, view_joined};

use crate::story::Story;
use crate::table::View;
use atomic_table::{Join, Play, Split};

/// It draws a ticket.
pub struct Draw;

impl<B: Story> Play<Option<B>, View<B::Fixed, B::Entry>> for Draw {
    ghost then = { Drew };
}

/// It looks which ticket is served. At its own it has the turn, and the value.
pub struct Call;

impl<B: Story> Play<Option<B>, View<B::Fixed, B::Entry>> for Call {
    ghost then = { Called B.fixed B.story B.caller };
}

/// It adds the entry to the history by which the value in its slot goes beyond what it had seen.
pub struct Log;

impl<B: Story> Play<Option<B>, View<B::Fixed, B::Entry>> for Log {
    ghost then = { Logged B.fixed B.story B.caller };
}

/// It gives the slot back and ends its turn: the next ticket is served.
pub struct Give;

impl<B: Story> Play<Option<B>, View<B::Fixed, B::Entry>> for Give {
    ghost then = { Gave };
}

/// It looks at the length of the history.
pub struct Look;

impl<B: Story> Play<Option<B>, View<B::Fixed, B::Entry>> for Look {
    ghost then = { Looked };
}

/// It notes which number it hands out next.
pub struct Choose;

impl<B: Story> Play<Option<B>, View<B::Fixed, B::Entry>> for Choose {
    ghost then = { Chose };
}

/// After a seat was joined into it, it learns that both had seen prefixes of one history.
pub struct Learn;

impl<B: Story> Play<Option<B>, View<B::Fixed, B::Entry>> for Learn {
    ghost then = { Learnt B.fixed B.story B.caller };
}

/// A new seat gets the number that was chosen.
pub struct Newcomer;

impl<F, E> Split<View<F, E>> for Newcomer {
    ghost left = { view_less_choice };

    ghost right = { newcomer };
}

/// A seat without a number, which only tells what was seen.
pub struct Note;

impl<F, E> Split<View<F, E>> for Note {
    ghost left = { λ v. v };

    ghost right = { note };
}

impl<F, E> Join<View<F, E>> for Note {
    ghost both = { view_told };

    ghost spent = { spent_view };
}

/// A seat that ends in another, which keeps its numbers and its entries.
pub struct Absorb;

impl<F, E> Join<View<F, E>> for Absorb {
    ghost both = { view_joined };

    ghost spent = { spent_view };
}
