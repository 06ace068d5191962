//! Entries, spelt at the end of a text.
ghost use Rattle.std.specs.Prelude.{◌≡◌, ◌++◌, ◌∷◌, [], OnOk};
ghost use Rattle.bp_text.specs.Lines.{text_of};
ghost use Rattle.bp_text.specs.Words.{words_behind, phrase};
ghost use Rattle.bp_journal.specs.Acts.{
  act_word,
  act_numbers,
  command_word,
  command_numbers,
  reply_word,
  reply_numbers,
};
ghost use Rattle.bp_journal.specs.Journals.{entry_text};

use bp_core::{Act, Entry, Reply};
use bp_text::{push_number, push_numbers};
use bp_types::Command;
use std::alloc::AllocError;

/// What stands between two words.
const SPACE: u8 = b' ';

/// What ends a line.
const LINE_END: u8 = 10;

/// Puts a word and numbers at the end of a text, each behind one space.
fn push_phrase(text: &mut Vec<u8>, word: &[u8], numbers: &[u64]) -> Result<(), AllocError>
    ensures { OnOk result (text.new.items ≡ text.old.items ++ words_behind (phrase word.now numbers.now)) }
{
    text.push(SPACE)?;
    text.extend_from_slice(word)?;
    push_numbers(text, numbers)?;
    Ok(())
}

/// Puts a word and a number of 128 bits at the end of a text.
fn push_wide(text: &mut Vec<u8>, word: &[u8], number: u128) -> Result<(), AllocError>
    ensures { OnOk result (text.new.items ≡ text.old.items ++ words_behind (phrase word.now (number ∷ []))) }
{
    text.push(SPACE)?;
    text.extend_from_slice(word)?;
    text.push(SPACE)?;
    push_number(text, number)?;
    Ok(())
}

/// Puts the words of a command at the end of a text, behind a space.
fn push_command(text: &mut Vec<u8>, command: Command) -> Result<(), AllocError>
    ensures { OnOk result (text.new.items ≡
        text.old.items ++ words_behind (phrase (command_word command) (command_numbers command))) }
{
    match command {
        Command::Book { stay } => push_phrase(text, b"book", &[u64::from(stay)]),
        Command::Cancel { nth } => push_phrase(text, b"cancel", &[nth]),
        Command::Reforecast { stay, count } => {
            push_phrase(text, b"reforecast", &[u64::from(stay), count])
        }
        Command::Reprice { stay, rate } => {
            push_phrase(text, b"reprice", &[u64::from(stay), rate])
        }
        Command::Resize { night, rooms } => {
            push_phrase(text, b"resize", &[u64::from(night), rooms])
        }
        Command::Group {
            span,
            rooms,
            amount,
        } => {
            push_phrase(
                text,
                b"group",
                &[u64::from(span.from), u64::from(span.to), rooms, amount],
            )
        }
    }
}

/// Puts the words of an act at the end of a text, behind a space.
fn push_act(text: &mut Vec<u8>, act: Act) -> Result<(), AllocError>
    ensures { OnOk result (text.new.items ≡ text.old.items ++ words_behind (phrase (act_word act) (act_numbers act))) }
{
    match act {
        Act::Do(command) => push_command(text, command),
        Act::Publish { position } => push_phrase(text, b"publish", &[position]),
        Act::Enrol => push_phrase(text, b"enrol", &[]),
        Act::Leave => push_phrase(text, b"leave", &[]),
    }
}

/// Puts the words of a reply at the end of a text, behind a space.
fn push_reply(text: &mut Vec<u8>, reply: Reply) -> Result<(), AllocError>
    ensures { OnOk result (text.new.items ≡
        text.old.items ++ words_behind (phrase (reply_word reply) (reply_numbers reply))) }
{
    match reply {
        Reply::Accepted { vector, sum } => push_phrase(text, b"accepted", &[vector, sum]),
        Reply::TooLow { vector, sum, rate } => push_phrase(text, b"toolow", &[vector, sum, rate]),
        Reply::NoRoom { vector, sum, night } => {
            push_phrase(text, b"noroom", &[vector, sum, u64::from(night)])
        }
        Reply::Cancelled => push_phrase(text, b"cancelled", &[]),
        Reply::NotBooked => push_phrase(text, b"notbooked", &[]),
        Reply::AlreadyCancelled => push_phrase(text, b"alreadycancelled", &[]),
        Reply::Done => push_phrase(text, b"done", &[]),
        Reply::BelowSold { sold } => push_phrase(text, b"belowsold", &[sold]),
        Reply::GroupAccepted { displacement } => push_wide(text, b"accepted", displacement),
        Reply::GroupTooLow { displacement } => push_wide(text, b"toolow", displacement),
        Reply::GroupNoRoom { night } => push_phrase(text, b"noroom", &[u64::from(night)]),
        Reply::Vector { number } => push_phrase(text, b"vector", &[number]),
    }
}

/// Puts the line of an entry at the end of a text.
pub(crate) fn push_entry(text: &mut Vec<u8>, place: u64, entry: Entry) -> Result<(), AllocError>
    ensures { OnOk result (text.new.items ≡ text.old.items ++ text_of (entry_text place entry ∷ [])) }
{
    push_number(text, u128::from(place))?;
    text.push(SPACE)?;
    push_number(text, u128::from(entry.caller))?;
    push_act(text, entry.act)?;
    push_reply(text, entry.reply)?;
    text.push(LINE_END)?;
    Ok(())
}
