//! A million calls as a busy desk has them: bookings, cancellations, new forecasts, rates and rooms, and groups, with a
//! new vector after each 200. The program of bench/desk.cpp makes the same calls.
ghost use Rattle.std.specs.Prelude.{◌≡◌, ◌<◌, length};

use crate::desk::Desk;
use crate::draws::WideDraws;
use crate::hotel::{Hotel, NIGHTS, STAYS, busy_hotel, covers_free, is_dear, is_free};
use crate::timed::{Timed, since};
use bp_core::{Act, Answer, Reply};
use bp_types::{Command, Span, Stay};
use std::alloc::Global;
use std::test::Fail;
use std::time::{Clock, Instant};

/// Callers of a book, the opener among them.
const CALLERS: u32 = 16;

/// Calls between two vectors.
const BATCH: u32 = 200;

/// What a command is drawn from: two numbers below a million.
#[derive(Clone, Copy, Drop)]
struct Pair {
    a: u64,
    b: u64,
}

/// A new forecast of a stay: none where it covers a night that is closed at no price.
fn reforecast(stay: u32, stays: &[Stay], count: u64) -> Command {
    let closed = match stays.get(stay as usize) {
        Some(stay) => covers_free(stay.span),
        None => true,
    };
    Command::Reforecast {
        stay,
        count: if closed { 0 } else { count },
    }
}

/// New rooms of a night: one time in ten fewer than are sold, else 9,000 at least, and none where the night is closed.
fn resize(night: u32, pick: u64) -> Command {
    let open = if pick.is_multiple_of(10) {
        99
    } else {
        9_000 + pick % 1_001
    };
    let rooms = if is_dear(night) || is_free(night) {
        0
    } else {
        open
    };
    Command::Resize { night, rooms }
}

/// A group of two nights, or of the last one alone.
fn group(night: u32, rooms: u64, amount: u64) -> Command
    requires { night < NIGHTS }
{
    let to = if night + 1 < NIGHTS {
        night + 2
    } else {
        NIGHTS
    };
    Command::Group {
        span: Span { from: night, to },
        rooms,
        amount,
    }
}

/// The command of a kind below 100.
fn command(kind: u64, pair: Pair, stays: &[Stay]) -> Command {
    let Pair { a, b } = pair;
    let stay = (a % u64::from(STAYS)) as u32;
    let night = (a % u64::from(NIGHTS)) as u32;
    if kind < 70 {
        return Command::Book { stay };
    }
    if kind < 80 {
        return Command::Cancel { nth: 1 + a % 4_000 };
    }
    if kind < 87 {
        return reforecast(stay, stays, b % 100);
    }
    if kind < 92 {
        return Command::Reprice {
            stay,
            rate: 1 + b % 1_000,
        };
    }
    if kind < 96 {
        return resize(night, b);
    }
    group(night, if kind < 98 { 10_000 } else { 1 }, b)
}

/// The next command: a kind, and what it is drawn from.
fn next_command(draws: &mut WideDraws, stays: &[Stay]) -> Command {
    let kind = draws.below(100);
    let a = draws.below(1_000_000);
    let b = draws.below(1_000_000);
    command(kind, Pair { a, b }, stays)
}

/// A reply as numbers: its kind, and what it tells.
fn reply_parts(reply: Reply) -> [u64; 4] {
    match reply {
        Reply::Accepted { vector, sum } => [0, vector, sum, 0],
        Reply::TooLow { vector, sum, rate } => [1, vector, sum, rate],
        Reply::NoRoom { vector, sum, night } => [2, vector, sum, u64::from(night)],
        Reply::Cancelled => [3, 0, 0, 0],
        Reply::NotBooked => [4, 0, 0, 0],
        Reply::AlreadyCancelled => [5, 0, 0, 0],
        Reply::Done => [6, 0, 0, 0],
        Reply::BelowSold { sold } => [7, sold, 0, 0],
        Reply::GroupNoRoom { night } => [8, u64::from(night), 0, 0],
        Reply::Vector { number } => [9, number, 0, 0],
        Reply::GroupAccepted { .. } | Reply::GroupTooLow { .. } => [15, 0, 0, 0],
    }
}

/// An answer as numbers: its kind, and what it tells.
fn parts(answer: Option<Answer>) -> [u64; 4] {
    match answer {
        Some(Answer::Logged(reply)) => reply_parts(reply),
        Some(Answer::HistoryFull) => [10, 0, 0, 0],
        Some(Answer::Behind { position, changes }) => [11, position, changes, 0],
        Some(Answer::Unquoted) => [12, 0, 0, 0],
        Some(Answer::Superseded { position, changes }) => [13, position, changes, 0],
        Some(Answer::PublicationsFull) => [14, 0, 0, 0],
        Some(Answer::Stale { changes }) => [16, changes, 0, 0],
        None => [17, 0, 0, 0],
    }
}

/// A sum over all answers so far, with one more.
fn added(sum: u64, answer: Option<Answer>) -> u64 {
    let mut sum = sum;
    for part in parts(answer).iter() {
        sum = sum.wrapping_mul(31).wrapping_add(*part);
    }
    sum
}

/// A busy desk in the midst of its calls.
#[derive(Drop)]
struct Shift {
    draws: WideDraws,
    /// What the calls and publications took so far, in nanoseconds, and the sum over their answers.
    taken: u128,
    sum: u64,
}

impl Shift {
    /// Makes the calls of a batch, each by one of the callers.
    fn call_all(&mut self, desk: &mut Desk, stays: &[Stay]) {
        for _ in 0..BATCH {
            let caller = self.draws.below(u64::from(CALLERS)) as u32;
            let command = next_command(&mut self.draws, stays);
            self.sum = added(self.sum, desk.ask(caller, Act::Do(command)));
        }
    }

    /// Calls, and then publishes the prices anew; what the board takes to make is not counted.
    fn batch<C: Clock>(
        &mut self,
        clock: &C,
        alloc: Global,
        desk: &mut Desk,
        hotel: &Hotel,
    ) -> Result<(), Fail> {
        let start = Instant::now(clock)?;
        self.call_all(desk, &hotel.stays);
        self.taken = self.taken.saturating_add(since(clock, start)?);
        let board = desk.board(alloc, &hotel.prices)?;
        let start = Instant::now(clock)?;
        let answer = desk.post(board);
        self.taken = self.taken.saturating_add(since(clock, start)?);
        self.sum = added(self.sum, answer);
        Ok(())
    }

    /// Opens a book, enrols its callers, and makes so many batches.
    fn book<C: Clock>(
        &mut self,
        clock: &C,
        alloc: Global,
        hotel: &Hotel,
        batches: u32,
    ) -> Result<(), Fail> {
        let mut desk = Desk::open(alloc, hotel)?;
        for caller in 1..CALLERS {
            let _enrolled = desk.ask(caller, Act::Enrol);
        }
        for _ in 0..batches {
            self.batch(clock, alloc, &mut desk, hotel)?;
        }
        Ok(())
    }
}

/// Times so many batches on each of so many books.
pub(crate) fn run<C: Clock>(
    clock: &C,
    alloc: Global,
    books: u32,
    batches: u32,
) -> Result<Vec<Timed>, Fail> {
    let hotel = busy_hotel(alloc)?;
    let mut shift = Shift {
        draws: WideDraws { state: 1 },
        taken: 0,
        sum: 0,
    };
    for _ in 0..books {
        shift.book(clock, alloc, &hotel, batches)?;
    }
    let mut lines = Vec::new(alloc);
    lines.push(Timed {
        name: "book",
        nanoseconds: shift.taken,
        count: u128::from(shift.sum),
    })?;
    Ok(lines)
}
