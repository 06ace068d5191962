//! A month of a hotel with four sessions and two workers.
ghost use Rattle.std.specs.Prelude.{◌<◌};

use crate::desk_files::HEADER;
use crate::desks::{legal_line, served_over};
use crate::tests::held;
use bp_edges::{HeldFile, NoGate};
use std::alloc::{AllocError, Global};
use std::sync::Wait;
use std::thread::Threads;

/// A month with 120 rooms on each night.
const HOTEL: &str = "name = \"C\"
first_night = \"2025-07-01\"
nights = 31
rooms = 120
stale_after = 20
publications = 100
";

/// Its stays.
const STAYS: u64 = 300;

/// Stays of one to seven nights, at a rate a night that differs from stay to stay.
fn stays(alloc: Global) -> Result<String, AllocError> {
    let mut text = String::from_str(alloc, "code,arrival,nights,rate\n")?;
    for stay in 0..STAYS {
        let day = stay * 7 % 31 + 1;
        let nights = (stay % 7 + 1).min(32 - day);
        let rate = nights * (5_000 + stay * 37 % 10_000);
        text.push_str(&format!(in alloc; "S{stay},2025-07-{day:02},{nights},{rate}\n")?)?;
    }
    Ok(text)
}

/// A forecast of up to 19 for each stay.
fn forecast(alloc: Global) -> Result<String, AllocError> {
    let mut text = String::from_str(alloc, "code,count\n")?;
    for stay in 0..STAYS {
        let count = stay * 13 % 20;
        text.push_str(&format!(in alloc; "S{stay},{count}\n")?)?;
    }
    Ok(text)
}

/// A command of a session: mostly a Book.
fn command(alloc: Global, nth: u64) -> Result<String, AllocError>
    requires { nth < 200 }
{
    let stay = nth * 11 % STAYS;
    let day = nth * 3 % 31 + 1;
    match nth % 20 {
        3 | 13 => {
            let booking = nth / 4 + 1;
            format!(in alloc; "cancel,{booking},,,")
        }
        5 => {
            let count = nth % 30;
            format!(in alloc; "reforecast,S{stay},,,{count}")
        }
        7 => {
            let rate = 5_000 + nth * 101;
            format!(in alloc; "reprice,S{stay},,,{rate}")
        }
        9 => {
            let rooms = 100 + nth % 20;
            format!(in alloc; "resize,2025-07-{day:02},,{rooms},")
        }
        19 => {
            let amount = nth * 1_000;
            format!(in alloc; "group,2025-07-{day:02},1,5,{amount}")
        }
        _ => format!(in alloc; "book,S{stay},,,"),
    }
}

/// Fifty commands for each of four sessions.
fn script(alloc: Global) -> Result<String, AllocError> {
    let mut text = String::from_str(alloc, HEADER)?;
    for nth in 0..200u64 {
        let session = nth % 4 + 1;
        let command = command(alloc, nth)?;
        text.push_str(&format!(in alloc; "{session},{command}\n")?)?;
    }
    Ok(text)
}

/// The files of the month, and a journal.
fn files(alloc: Global, journal: &str) -> Result<Vec<HeldFile>, AllocError> {
    let mut files = Vec::new(alloc);
    files.push(held(alloc, "hotel", HOTEL.as_bytes())?)?;
    files.push(held(alloc, "stays", stays(alloc)?.as_bytes())?)?;
    files.push(held(alloc, "forecast", forecast(alloc)?.as_bytes())?)?;
    files.push(held(alloc, "bookings", b"code,count\n")?)?;
    files.push(held(alloc, "script", script(alloc)?.as_bytes())?)?;
    files.push(held(alloc, "journal", journal.as_bytes())?)?;
    Ok(files)
}

/// The status and the journal of the month's desk.
pub(crate) fn desk<R: Wait + Threads + Sync>(
    rt: &R,
    alloc: Global,
) -> Result<(u8, String), AllocError> {
    let line = "desk hotel stays forecast bookings script --workers 2";
    served_over(rt, alloc, line, files(alloc, "")?, 0, 0, &NoGate)
}

/// Whether a journal of the month is legal, with as many entries as it has.
pub(crate) fn is_legal<R: Wait + Threads + Sync>(
    rt: &R,
    alloc: Global,
    journal: &str,
) -> Result<bool, AllocError> {
    let line = "replay hotel stays forecast bookings journal";
    let (status, text) = served_over(rt, alloc, line, files(alloc, journal)?, 0, 0, &NoGate)?;
    Ok(status == 0 && text.as_str() == legal_line(alloc, journal)?.as_str())
}
