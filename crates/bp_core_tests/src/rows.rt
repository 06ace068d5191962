//! What the rows of the tables are written with: an act, or what is answered to it.
//! The first number of an act says what it is about; the others stand behind their names.

use bp_core::{Act, Answer, Reply};

pub(crate) const ENROL: Act = Act::Enrol;

pub(crate) const LEAVE: Act = Act::Leave;

pub(crate) const DONE: Answer = Answer::Logged(Reply::Done);

pub(crate) const CANCELLED: Answer = Answer::Logged(Reply::Cancelled);

pub(crate) const ALREADY_CANCELLED: Answer = Answer::Logged(Reply::AlreadyCancelled);

pub(crate) const NOT_BOOKED: Answer = Answer::Logged(Reply::NotBooked);

pub(crate) const HISTORY_FULL: Answer = Answer::HistoryFull;

pub(crate) const UNQUOTED: Answer = Answer::Unquoted;

/// To book a room for a stay, by its number.
macro_rules! book {
    ($stay:literal) => {
        bp_core::Act::Do(bp_types::Command::Book { stay: $stay })
    };
}

/// To give up the caller's booking of this number, counted from 1 over its booking calls, accepted or not.
macro_rules! cancel {
    ($nth:literal) => {
        bp_core::Act::Do(bp_types::Command::Cancel { nth: $nth })
    };
}

/// To book so many rooms on each night of a span, for one amount.
macro_rules! group {
    ($span:ident, rooms $rooms:literal, amount $amount:literal) => {
        bp_core::Act::Do(bp_types::Command::Group {
            span: $span,
            rooms: $rooms,
            amount: $amount,
        })
    };
}

/// To set the forecast of a stay.
macro_rules! reforecast {
    ($stay:literal, count $count:literal) => {
        bp_core::Act::Do(bp_types::Command::Reforecast {
            stay: $stay,
            count: $count,
        })
    };
}

/// To set the rate of a stay.
macro_rules! reprice {
    ($stay:literal, rate $rate:literal) => {
        bp_core::Act::Do(bp_types::Command::Reprice {
            stay: $stay,
            rate: $rate,
        })
    };
}

/// To set the rooms of a night.
macro_rules! resize {
    ($night:literal, rooms $rooms:literal) => {
        bp_core::Act::Do(bp_types::Command::Resize {
            night: $night,
            rooms: $rooms,
        })
    };
}

/// The stay is booked: its rate covers the sum of its prices in the vector.
macro_rules! accepted {
    (vector $vector:literal, sum $sum:literal) => {
        bp_core::Answer::Logged(bp_core::Reply::Accepted {
            vector: $vector,
            sum: $sum,
        })
    };
}

/// The price is covered, and this is the first night with no room left.
macro_rules! no_room {
    (vector $vector:literal, sum $sum:literal, night $night:literal) => {
        bp_core::Answer::Logged(bp_core::Reply::NoRoom {
            vector: $vector,
            sum: $sum,
            night: $night,
        })
    };
}

/// The rate is below the sum of the stay's prices in the vector.
macro_rules! too_low {
    (vector $vector:literal, sum $sum:literal, rate $rate:literal) => {
        bp_core::Answer::Logged(bp_core::Reply::TooLow {
            vector: $vector,
            sum: $sum,
            rate: $rate,
        })
    };
}

/// So many rooms of the night are sold, more than were asked for.
macro_rules! below_sold {
    ($sold:literal) => {
        bp_core::Answer::Logged(bp_core::Reply::BelowSold { sold: $sold })
    };
}

/// The first night of the span with fewer rooms left than the group asks for.
macro_rules! group_no_room {
    ($night:literal) => {
        bp_core::Answer::Logged(bp_core::Reply::GroupNoRoom { night: $night })
    };
}

/// So many changes stand after the last vector's position: a new vector has to come first.
macro_rules! behind {
    (position $position:literal, changes $changes:literal) => {
        bp_core::Answer::Behind {
            position: $position,
            changes: $changes,
        }
    };
}

/// So many changes stand from the last vector's position to the board's, fewer than were asked for.
macro_rules! superseded {
    (position $position:literal, changes $changes:literal) => {
        bp_core::Answer::Superseded {
            position: $position,
            changes: $changes,
        }
    };
}

/// The board is published as the vector of this number.
macro_rules! vector {
    ($number:literal) => {
        bp_core::Answer::Logged(bp_core::Reply::Vector { number: $number })
    };
}

pub(crate) use accepted;
pub(crate) use behind;
pub(crate) use below_sold;
pub(crate) use book;
pub(crate) use cancel;
pub(crate) use group;
pub(crate) use group_no_room;
pub(crate) use no_room;
pub(crate) use reforecast;
pub(crate) use reprice;
pub(crate) use resize;
pub(crate) use superseded;
pub(crate) use too_low;
pub(crate) use vector;
