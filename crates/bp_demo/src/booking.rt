//! Bookings by the opener, of each stay once.
ghost use Rattle.std.specs.Prelude.{◌≡◌, ◌+◌, ◌<◌, ◌++◌, ◌∷◌, [], length};
ghost use Rattle.bp_core.specs.Answer.{book_reply};
ghost use Rattle.bp_demo.specs.Bookings.{booking, booked_behind, counts_of, no_counts};

use crate::counts::Counts;
use bp_core::{Answer, Book, Call, Reply};
use bp_types::Command;

/// Books a stay, where the history is short enough for a book that refuses none.
#[tactic(auto, using(crate::proofs::BookingLemmas::is_booked))]
fn book_stay(book: &mut Book, stay: u32) -> Reply
    requires there { stay < length book.old.house.stays }
    requires fresh { length book.old.history < book.old.house.limits.stale_after }
    requires room { length book.old.history < book.old.house.limits.entries }
    ensures booked { book.new ≡
        record {
          house = book.old.house;
          history =
              book.old.history ++ booking book.old.house book.old.history stay ∷ [];
        } }
    ensures reply { result ≡ book_reply book.old.house book.old.history stay }
{
    let call = Call::Do {
        command: Command::Book { stay },
        quoted: None,
    };
    match book.act(0, call) {
        Answer::Logged(reply) => reply,
        _ => unreachable!(),
    }
}

/// Books each stay once, in order, on a book that has just opened, and counts the replies.
pub(crate) fn book_each(book: &mut Book) -> Counts
    requires opened { length book.old.history ≡ 1 }
    requires none { counts_of book.old.history ≡ no_counts }
    requires fresh { length book.old.house.stays + 1 < book.old.house.limits.stale_after }
    requires room { length book.old.house.stays + 1 < book.old.house.limits.entries }
    ensures house { book.new.house ≡ book.old.house }
    ensures history { book.new.history ≡ booked_behind book.old.house book.old.history (length book.old.house.stays) }
    ensures counts { result ≡ counts_of book.new.history }
{
    let stays = book.house().stays();
    let mut counts = Counts::none();
    for stay in 0..stays {
        let reply = book_stay(book, stay);
        counts = counts.with(reply);
    }
    counts
}
