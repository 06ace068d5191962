//! The reply of an entry, from the words of its line.
ghost use Rattle.std.specs.Prelude.{◌≡◌, false, Some, codes};
ghost use Rattle.bp_core.specs.Lines.{is_done};
ghost use Rattle.bp_journal.specs.Acts.{
  is_book_reply,
  is_cancel_reply,
  is_resize_reply,
  is_group_reply,
  is_publish_reply,
  is_reply_of,
};
ghost use Rattle.bp_journal.specs.Told.{IsReplyBehind, IsReplyRead};

use crate::limits::{MOST_HALF, MOST_NUMBER};
use crate::numbers::{is_either, two};
use crate::told::ToldReply;
use bp_core::{Act, Reply};
use bp_text::Words;
use bp_types::Command;
use bp_types::limits::MOST_VALUE;

/// What stands behind the word of a Book that was accepted.
fn accepted(words: &mut Words<'_>) -> Option<ToldReply>
    ensures { IsReplyBehind is_book_reply (codes "accepted") words.old words.new result }
{
    match two(words, MOST_NUMBER, MOST_NUMBER) {
        None => None,
        Some((vector, sum)) => {
            let reply = Reply::Accepted {
                vector: vector.value as u64,
                sum: sum.value as u64,
            };
            let great = is_either(vector.great, sum.great);
            Some(ToldReply { reply, great })
        }
    }
}

/// What stands behind the word of a Book whose rate was too low.
fn too_low(words: &mut Words<'_>) -> Option<ToldReply>
    ensures { IsReplyBehind is_book_reply (codes "toolow") words.old words.new result }
{
    let Some((vector, sum)) = two(words, MOST_NUMBER, MOST_NUMBER) else {
        return None;
    };
    match words.number(MOST_NUMBER) {
        None => None,
        Some(rate) => {
            let reply = Reply::TooLow {
                vector: vector.value as u64,
                sum: sum.value as u64,
                rate: rate.value as u64,
            };
            let great = is_either(is_either(vector.great, sum.great), rate.great);
            Some(ToldReply { reply, great })
        }
    }
}

/// What stands behind the word of a Book for which a night had no room.
fn no_room(words: &mut Words<'_>) -> Option<ToldReply>
    ensures { IsReplyBehind is_book_reply (codes "noroom") words.old words.new result }
{
    let Some((vector, sum)) = two(words, MOST_NUMBER, MOST_NUMBER) else {
        return None;
    };
    match words.number(MOST_HALF) {
        None => None,
        Some(night) => {
            let reply = Reply::NoRoom {
                vector: vector.value as u64,
                sum: sum.value as u64,
                night: night.value as u32,
            };
            let great = is_either(is_either(vector.great, sum.great), night.great);
            Some(ToldReply { reply, great })
        }
    }
}

/// What stands behind the word of a Resize below what is sold.
fn below_sold(words: &mut Words<'_>) -> Option<ToldReply>
    ensures { IsReplyBehind is_resize_reply (codes "belowsold") words.old words.new result }
{
    match words.number(MOST_NUMBER) {
        None => None,
        Some(sold) => {
            let reply = Reply::BelowSold {
                sold: sold.value as u64,
            };
            let great = sold.great;
            Some(ToldReply { reply, great })
        }
    }
}

/// What stands behind the word of a Group that was accepted.
fn group_accepted(words: &mut Words<'_>) -> Option<ToldReply>
    ensures { IsReplyBehind is_group_reply (codes "accepted") words.old words.new result }
{
    match words.number(MOST_VALUE) {
        None => None,
        Some(displacement) => {
            let reply = Reply::GroupAccepted {
                displacement: displacement.value,
            };
            let great = displacement.great;
            Some(ToldReply { reply, great })
        }
    }
}

/// What stands behind the word of a Group whose amount was too low.
fn group_too_low(words: &mut Words<'_>) -> Option<ToldReply>
    ensures { IsReplyBehind is_group_reply (codes "toolow") words.old words.new result }
{
    match words.number(MOST_VALUE) {
        None => None,
        Some(displacement) => {
            let reply = Reply::GroupTooLow {
                displacement: displacement.value,
            };
            let great = displacement.great;
            Some(ToldReply { reply, great })
        }
    }
}

/// What stands behind the word of a Group for which a night had too few rooms.
fn group_no_room(words: &mut Words<'_>) -> Option<ToldReply>
    ensures { IsReplyBehind is_group_reply (codes "noroom") words.old words.new result }
{
    match words.number(MOST_HALF) {
        None => None,
        Some(night) => {
            let reply = Reply::GroupNoRoom {
                night: night.value as u32,
            };
            let great = night.great;
            Some(ToldReply { reply, great })
        }
    }
}

/// What stands behind the word of a vector's number.
fn vector(words: &mut Words<'_>) -> Option<ToldReply>
    ensures { IsReplyBehind is_publish_reply (codes "vector") words.old words.new result }
{
    match words.number(MOST_NUMBER) {
        None => None,
        Some(number) => {
            let reply = Reply::Vector {
                number: number.value as u64,
            };
            let great = number.great;
            Some(ToldReply { reply, great })
        }
    }
}

/// A reply without numbers.
fn plain(reply: Reply) -> Option<ToldReply>
    ensures { result ≡ Some (record { reply = reply; great = false }) }
{
    Some(ToldReply {
        reply,
        great: false,
    })
}

/// The reply to a Book that the next words tell.
fn to_book(words: &mut Words<'_>) -> Option<ToldReply>
    ensures { IsReplyRead is_book_reply words.old words.new result }
{
    let Some(word) = words.next() else {
        return None;
    };
    if word == b"accepted".as_slice() {
        return accepted(words);
    }
    if word == b"toolow".as_slice() {
        return too_low(words);
    }
    if word == b"noroom".as_slice() {
        return no_room(words);
    }
    None
}

/// The reply to a Cancel that the next words tell.
fn to_cancel(words: &mut Words<'_>) -> Option<ToldReply>
    ensures { IsReplyRead is_cancel_reply words.old words.new result }
{
    let Some(word) = words.next() else {
        return None;
    };
    if word == b"cancelled".as_slice() {
        return plain(Reply::Cancelled);
    }
    if word == b"notbooked".as_slice() {
        return plain(Reply::NotBooked);
    }
    if word == b"alreadycancelled".as_slice() {
        return plain(Reply::AlreadyCancelled);
    }
    None
}

/// The reply to a Resize that the next words tell.
fn to_resize(words: &mut Words<'_>) -> Option<ToldReply>
    ensures { IsReplyRead is_resize_reply words.old words.new result }
{
    let Some(word) = words.next() else {
        return None;
    };
    if word == b"done".as_slice() {
        return plain(Reply::Done);
    }
    if word == b"belowsold".as_slice() {
        return below_sold(words);
    }
    None
}

/// The reply to a Group that the next words tell.
fn to_group(words: &mut Words<'_>) -> Option<ToldReply>
    ensures { IsReplyRead is_group_reply words.old words.new result }
{
    let Some(word) = words.next() else {
        return None;
    };
    if word == b"accepted".as_slice() {
        return group_accepted(words);
    }
    if word == b"toolow".as_slice() {
        return group_too_low(words);
    }
    if word == b"noroom".as_slice() {
        return group_no_room(words);
    }
    None
}

/// The reply to a Publish that the next words tell.
fn to_publish(words: &mut Words<'_>) -> Option<ToldReply>
    ensures { IsReplyRead is_publish_reply words.old words.new result }
{
    let Some(word) = words.next() else {
        return None;
    };
    if word == b"vector".as_slice() {
        return vector(words);
    }
    None
}

/// The reply to any other act that the next words tell.
fn to_other(words: &mut Words<'_>) -> Option<ToldReply>
    ensures { IsReplyRead is_done words.old words.new result }
{
    let Some(word) = words.next() else {
        return None;
    };
    if word == b"done".as_slice() {
        return plain(Reply::Done);
    }
    None
}

/// The reply to an act that the next words tell; None where they tell none of its replies.
pub(crate) fn reply(words: &mut Words<'_>, act: Act) -> Option<ToldReply>
    ensures { IsReplyRead (is_reply_of act) words.old words.new result }
{
    match act {
        Act::Do(Command::Book { .. }) => to_book(words),
        Act::Do(Command::Cancel { .. }) => to_cancel(words),
        Act::Do(Command::Resize { .. }) => to_resize(words),
        Act::Do(Command::Group { .. }) => to_group(words),
        Act::Publish { .. } => to_publish(words),
        Act::Do(Command::Reforecast { .. } | Command::Reprice { .. }) | Act::Enrol | Act::Leave => {
            to_other(words)
        }
    }
}
