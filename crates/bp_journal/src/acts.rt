//! The act of an entry, from the words of its line.
ghost use Rattle.std.specs.Prelude.{◌≡◌, codes};
ghost use Rattle.bp_journal.specs.Told.{IsActBehind, IsActRead};

use crate::Version;
use crate::limits::{MOST_HALF, MOST_NUMBER};
use crate::numbers::{is_either, two};
use crate::told::ToldAct;
use bp_core::Act;
use bp_text::Words;
use bp_types::{Command, Span};

/// What stands behind the word of a Book.
fn book(words: &mut Words<'_>) -> Option<ToldAct>
    ensures { IsActBehind (codes "book") words.old words.new result }
{
    match words.number(MOST_HALF) {
        None => None,
        Some(number) => {
            let act = Act::Do(Command::Book {
                stay: number.value as u32,
            });
            let great = number.great;
            Some(ToldAct { act, great })
        }
    }
}

/// What stands behind the word of a Cancel.
fn cancel(words: &mut Words<'_>) -> Option<ToldAct>
    ensures { IsActBehind (codes "cancel") words.old words.new result }
{
    match words.number(MOST_NUMBER) {
        None => None,
        Some(number) => {
            let act = Act::Do(Command::Cancel {
                nth: number.value as u64,
            });
            let great = number.great;
            Some(ToldAct { act, great })
        }
    }
}

/// What stands behind the word of a Reforecast.
fn reforecast(words: &mut Words<'_>) -> Option<ToldAct>
    ensures { IsActBehind (codes "reforecast") words.old words.new result }
{
    match two(words, MOST_HALF, MOST_NUMBER) {
        None => None,
        Some((first, second)) => {
            let act = Act::Do(Command::Reforecast {
                stay: first.value as u32,
                count: second.value as u64,
            });
            let great = is_either(first.great, second.great);
            Some(ToldAct { act, great })
        }
    }
}

/// What stands behind the word of a Reprice.
fn reprice(words: &mut Words<'_>) -> Option<ToldAct>
    ensures { IsActBehind (codes "reprice") words.old words.new result }
{
    match two(words, MOST_HALF, MOST_NUMBER) {
        None => None,
        Some((first, second)) => {
            let act = Act::Do(Command::Reprice {
                stay: first.value as u32,
                rate: second.value as u64,
            });
            let great = is_either(first.great, second.great);
            Some(ToldAct { act, great })
        }
    }
}

/// What stands behind the word of a Resize.
fn resize(words: &mut Words<'_>) -> Option<ToldAct>
    ensures { IsActBehind (codes "resize") words.old words.new result }
{
    match two(words, MOST_HALF, MOST_NUMBER) {
        None => None,
        Some((first, second)) => {
            let act = Act::Do(Command::Resize {
                night: first.value as u32,
                rooms: second.value as u64,
            });
            let great = is_either(first.great, second.great);
            Some(ToldAct { act, great })
        }
    }
}

/// What stands behind the word of a Group.
fn group(words: &mut Words<'_>) -> Option<ToldAct>
    ensures { IsActBehind (codes "group") words.old words.new result }
{
    let Some((from, to)) = two(words, MOST_HALF, MOST_HALF) else {
        return None;
    };
    match two(words, MOST_NUMBER, MOST_NUMBER) {
        None => None,
        Some((rooms, amount)) => {
            let span = Span {
                from: from.value as u32,
                to: to.value as u32,
            };
            let act = Act::Do(Command::Group {
                span,
                rooms: rooms.value as u64,
                amount: amount.value as u64,
            });
            let great = is_either(
                is_either(from.great, to.great),
                is_either(rooms.great, amount.great),
            );
            Some(ToldAct { act, great })
        }
    }
}

/// What stands behind the word of a Publish.
fn publish(words: &mut Words<'_>) -> Option<ToldAct>
    ensures { IsActBehind (codes "publish") words.old words.new result }
{
    match words.number(MOST_NUMBER) {
        None => None,
        Some(number) => {
            let act = Act::Publish {
                position: number.value as u64,
            };
            let great = number.great;
            Some(ToldAct { act, great })
        }
    }
}

/// The act that the next words tell, if a version knows it; None where they tell none.
pub(crate) fn act(words: &mut Words<'_>, version: Version) -> Option<ToldAct>
    ensures { IsActRead version words.old words.new result }
{
    let Some(word) = words.next() else {
        return None;
    };
    if word == b"book".as_slice() {
        return book(words);
    }
    if word == b"cancel".as_slice() {
        return cancel(words);
    }
    if word == b"reforecast".as_slice() {
        return reforecast(words);
    }
    if word == b"reprice".as_slice() {
        return match version {
            Version::One => None,
            Version::Two => reprice(words),
        };
    }
    if word == b"resize".as_slice() {
        return resize(words);
    }
    if word == b"group".as_slice() {
        return group(words);
    }
    if word == b"publish".as_slice() {
        return publish(words);
    }
    if word == b"enrol".as_slice() {
        return Some(ToldAct {
            act: Act::Enrol,
            great: false,
        });
    }
    if word == b"leave".as_slice() {
        return Some(ToldAct {
            act: Act::Leave,
            great: false,
        });
    }
    None
}
