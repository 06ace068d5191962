//! The line of an entry.
ghost use Rattle.std.specs.Prelude.{◌≡◌, ◌==◌, ◌&&◌, ◌∷◌, not, true, List, MatchBool, MatchOption};
ghost use Rattle.bp_core.specs.declared.line.Entry.{Entry};
ghost use Rattle.bp_text.specs.Numbers.{spelled};
ghost use Rattle.bp_text.specs.Words.{Word};
ghost use Rattle.bp_journal.specs.Journals.{entry_words, is_form};
ghost use Rattle.bp_journal.specs.Limits.{IsHalfWord};
ghost use Rattle.bp_journal.specs.Found.{IsFound};
ghost use Rattle.bp_journal.specs.Told.{IsEntryTold, IsEntryFound};

use crate::Version;
use crate::acts::act;
use crate::found::Found;
use crate::limits::MOST_HALF;
use crate::numbers::is_either;
use crate::replies::reply;
use crate::told::{ToldAct, ToldReply};
use bp_core::Entry;
use bp_text::{Counted, Words};

/// What is found on a line that may be the entry's at a place, in a version.
pub(crate) fn entry_line(line: &[u8], place: u64, version: Version) -> Found
    ensures { IsFound version place line.now result }
{
    let mut words = Words::new(line);
    if !is_place(&mut words, place) {
        return Found::Bad;
    }
    match told(&mut words, version) {
        None => Found::Bad,
        Some((caller, act, reply)) => found(caller, act, reply),
    }
}

/// Whether the next word is this place.
fn is_place(words: &mut Words<'_>, place: u64) -> bool
    ensures { MatchBool result (words.old ≡ spelled place ∷ words.new) ((more : List Word) →
        words.old ≡ spelled place ∷ more → ⊥) }
{
    let wanted = u128::from(place);
    match words.number(wanted) {
        None => false,
        Some(number) => is_just(number, wanted),
    }
}

/// Whether a number that was counted is this one.
fn is_just(number: Counted, wanted: u128) -> bool
    ensures { result ≡ (not number.great && (number.value == wanted)) }
{
    !number.great && number.value == wanted
}

/// The caller, the act and the reply that the words behind the place tell, and none is left.
fn told(words: &mut Words<'_>, version: Version) -> Option<(Counted, ToldAct, ToldReply)>
    ensures { MatchOption result
        ((e : Entry) → is_form version e ≡ true → words.old ≡ entry_words e → ⊥)
        (λ r. (e : Entry) × (is_form version e ≡ true) × (words.old ≡ entry_words e) × IsEntryTold e r.0 r.1 r.2) }
{
    let Some(caller) = words.number(MOST_HALF) else {
        return None;
    };
    let Some(act) = act(words, version) else {
        return None;
    };
    let Some(reply) = reply(words, act.act) else {
        return None;
    };
    match words.next() {
        None => Some((caller, act, reply)),
        Some(_) => None,
    }
}

/// The entry that was told, unless a number of it is above its limit.
fn found(caller: Counted, act: ToldAct, reply: ToldReply) -> Found
    requires { IsHalfWord caller.value }
    ensures { (e : Entry) → IsEntryTold e caller act reply → IsEntryFound e result }
{
    if is_either(is_either(caller.great, act.great), reply.great) {
        return Found::Great;
    }
    Found::Whole(Entry {
        caller: caller.value as u32,
        act: act.act,
        reply: reply.reply,
    })
}
