//! The script of a desk's run, read row by row, and its commands by session.
ghost use Rattle.std.specs.Prelude.{◌≡◌, map, length, IfOk, IfErr, Ok, Err};
ghost use Rattle.bp_stayfile.specs.Reading.{table_read};
ghost use Rattle.bp_stayfile.specs.Refusals.{IfRefused};
ghost use Rattle.bp_stayfile.specs.Tables.{IsHeaderOf, table_of};
ghost use Rattle.bp_script.specs.Scripts.{
  request_rule,
  script_columns,
  commands_of,
  greatest_session,
  by_session,
  script_file,
};

use crate::Commands;
use crate::request::{Request, request_in};
use bp_hotelfile::Hotel;
use bp_stayfile::tables::{Row, header};
use bp_stayfile::{Codes, Column, TableError, TableRefusal};
use bp_types::Memory;
use std::alloc::Global;

/// The columns of a script.
const COLUMNS: [Column; 6] = [
    Column::Session,
    Column::Verb,
    Column::Item,
    Column::Nights,
    Column::Rooms,
    Column::Amount,
];

/// What the rows behind a header ask, in their order.
fn requests_under(
    alloc: Global,
    hotel: &Hotel,
    codes: &Codes,
    header: Row<'_>,
) -> Result<Vec<Request>, TableError>
    requires line { header.line ≡ 1 }
    requires columns { header.behind.columns ≡ 6 }
    ensures read { IfOk result (λ v. table_read (request_rule hotel.now codes.now) header.entry.behind ≡ Ok v.items) }
    ensures refused { IfErr result
        (λ e. IfRefused e (λ r. table_read (request_rule hotel.now codes.now) header.entry.behind ≡ Err r)) }
{
    let mut requests = Vec::new(alloc);
    let mut at = header;
    while let Some(row) = at.next()? {
        let request = request_in(hotel, codes, &row, requests.len() as u64)?;
        if requests.push(request).is_err() {
            return Err(TableError::Memory);
        }
        at = row;
    }
    Ok(requests)
}

/// The header of a script.
fn script_header(alloc: Global, bytes: &[u8]) -> Result<Row<'_>, TableError>
    ensures read { IfOk result (λ h. IsHeaderOf script_columns bytes.now h) }
    ensures columns { IfOk result (λ h. h.behind.columns ≡ 6) }
    ensures refused { IfErr result (λ e. IfRefused e (λ r. table_of script_columns bytes.now ≡ Err r)) }
{
    header(alloc, bytes, &COLUMNS)
}

/// The commands of a session.
fn commands_of(alloc: Global, requests: &[Request], session: u32) -> Result<Commands, Memory>
    ensures { IfOk result (λ c. c ≡ commands_of requests.now session) }
{
    let list = requests
        .iter()
        .filter(|request| request.session == session)
        .map(|request| request.command)
        .collect(alloc)?;
    Ok(Commands { list })
}

/// The greatest session that is named, or 0.
fn greatest_session(requests: &[Request]) -> u32
    ensures { result ≡ greatest_session requests.now }
{
    requests
        .iter()
        .fold(0, |most, request| most.max(request.session))
}

/// The commands of each session, from session 1 on, by a pass over all requests for each.
fn by_session(alloc: Global, requests: &[Request]) -> Result<Vec<Commands>, Memory>
    ensures { IfOk result (λ v. v.items ≡ by_session requests.now) }
{
    let mut sessions = Vec::new(alloc);
    for before in 0..greatest_session(requests) {
        let commands = commands_of(alloc, requests, before + 1)?;
        if sessions.push(commands).is_err() {
            return Err(Memory);
        }
    }
    Ok(sessions)
}

/// The commands of each session of a script, from session 1 to the greatest that is named, or the first thing that is
/// wrong with it. `Memory` says nothing of the script.
///
/// A session that no row names has none. The codes are those of the hotel's stays file.
pub fn read_script(
    alloc: Global,
    hotel: &Hotel,
    codes: &Codes,
    bytes: &[u8],
) -> Result<Vec<Commands>, TableError>
    ensures read { IfOk result (λ v. script_file hotel.now codes.now bytes.now ≡ Ok v.items) }
    ensures refused { IfErr result (λ e. IfRefused e (λ r. script_file hotel.now codes.now bytes.now ≡ Err r)) }
{
    let header = script_header(alloc, bytes)?;
    let requests = requests_under(alloc, hotel, codes, header)?;
    Ok(by_session(alloc, &requests)?)
}
