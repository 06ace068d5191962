//! What a row of a script asks: a session and its command.
ghost use Rattle.std.specs.Prelude.{◌≡◌, ◌+◌, length};
ghost use Rattle.bp_script.specs.Scripts.{session_in, room_in, request_in};

use crate::command::command_in;
use crate::verb::verb_in;
use bp_hotelfile::Hotel;
use bp_stayfile::tables::{Row, number_of};
use bp_stayfile::{Codes, TableRefusal};
use bp_types::Command;
use bp_types::limits::{MOST_ENTRIES, MOST_SESSIONS};

/// What a row asks of a session.
#[derive(Clone, Copy)]
pub(crate) struct Request {
    /// The session, from 1 to `MOST_SESSIONS`.
    pub session: u32,
    /// Its command, within its limits.
    pub command: Command,
}

/// The number of a session, from 1 to the most that there may be; else `Session`.
fn session_in(line: u64, text: &str) -> Result<u32, TableRefusal>
    ensures { result ≡ session_in line text.now }
{
    match number_of(text) {
        Some(number) if 1 <= number && number <= MOST_SESSIONS as u64 => Ok(number as u32),
        _ => Err(TableRefusal::Session { line }),
    }
}

/// Whether there is room for a command more.
fn room_in(line: u64, before: u64) -> Result<(), TableRefusal>
    ensures { result ≡ room_in line before }
{
    if before < MOST_ENTRIES {
        Ok(())
    } else {
        Err(TableRefusal::Limit { line })
    }
}

/// What a row asks, after so many commands before it.
pub(crate) fn request_in(
    hotel: &Hotel,
    codes: &Codes,
    row: &Row<'_>,
    before: u64,
) -> Result<Request, TableRefusal>
    requires columns { length row.now.fields ≡ 6 }
    requires line { row.now.line ≡ before + 2 }
    ensures { result ≡ request_in hotel.now codes.now before row.now.fields }
{
    let line = row.line();
    let session = session_in(line, row.field(0))?;
    let verb = verb_in(line, row.field(1))?;
    let command = command_in(hotel, codes, row, verb)?;
    room_in(line, before)?;
    Ok(Request { session, command })
}
