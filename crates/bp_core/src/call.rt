//! What callers ask of a book, and what it answers.
use crate::Reply;
use bp_board::Board;
use bp_types::{Command, Quoted};
use std::sync::Arc;

/// What a caller asks of a book.
#[derive(Drop)]
pub enum Call {
    /// A command; a quote goes with a Group alone.
    Do {
        command: Command,
        quoted: Option<Quoted>,
    },
    /// To publish a board, where so many changes at least, `least`, stand from the last vector's position to its own.
    Publish {
        board: Arc<Board>,
        least: u64,
    },
    /// To become one of those who may act.
    Enrol,
    /// To act no more.
    Leave,
}

/// What a book answers. Every answer but `Logged` leaves it as it was.
#[derive(Clone, Copy, Debug, PartialEq, Eq)]
pub enum Answer {
    /// The call is the last entry of the history, with this reply.
    Logged(Reply),
    /// As many commands as the limits allow are logged.
    HistoryFull,
    /// So many changes stand after this position, the last vector's: a new vector has to come first.
    Behind { position: u64, changes: u64 },
    /// A group that there are rooms for needs a quote.
    Unquoted,
    /// So many changes stand after the quote's position.
    Stale { changes: u64 },
    /// So many changes stand from this position, the last vector's, to the board's, fewer than were asked for.
    Superseded { position: u64, changes: u64 },
    /// As many vectors as the limits allow are published.
    PublicationsFull,
}
