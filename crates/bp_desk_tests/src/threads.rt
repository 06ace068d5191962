//! Calls of several threads at one desk.
ghost use Rattle.std.specs.Prelude.{◌≡◌, ◌<◌, All, IfOk};
ghost use Rattle.bp_desk_tests.specs.Passing.{IsPassOf};

use crate::calling::{ask, next};
use crate::hotel::{Hotel, open};
use bp_core::{Act, Answer, Book, Reply};
use bp_desk::{Desk, Pass};
use bp_edges::MemorySink;
use bp_fixtures::{LIMITS, ONE_ROOM, THREE_NIGHTS};
use bp_journal::{read, write};
use bp_judge::{Judgement, judge};
use bp_types::{Command, House, Limits, Steps};
use std::alloc::Global;
use std::marker::Brand;
use std::process::Abort;
use std::sync::Wait;
use std::sync::ledger::{Blank, Ledger};
use std::test::Fail;
use std::thread::{Threads, for_each_mut, join};

/// What one thread has: its pass, and what it was answered so far.
#[derive(Drop)]
struct Caller {
    pass: Pass,
    answers: Vec<Answer>,
}

/// The calls of a thread.
const CALLS: usize = 100;

/// What a thread asks for, in turn.
const ROUNDS: [Command; 12] = [
    Command::Book { stay: 0 },
    Command::Book { stay: 3 },
    Command::Cancel { nth: 1 },
    Command::Book { stay: 1 },
    Command::Reforecast { stay: 0, count: 4 },
    Command::Book { stay: 2 },
    Command::Cancel { nth: 1 },
    Command::Reprice { stay: 3, rate: 41 },
    Command::Resize { night: 1, rooms: 2 },
    Command::Book { stay: 1 },
    Command::Cancel { nth: 5 },
    Command::Cancel { nth: 6 },
];

/// Makes the calls of one thread.
fn work<R: Wait>(rt: &R, desk: &Desk, hotel: &Hotel, caller: &mut Caller)
    requires { IsPassOf desk.now hotel.now.house hotel.now.start caller.old.pass }
{
    for number in 0..CALLS {
        let command = ROUNDS[number % ROUNDS.len()];
        if let Some(answer) = ask(rt, desk, hotel, &mut caller.pass, command) {
            let _kept = caller.answers.push(answer).is_ok();
        }
    }
}

/// Makes the calls of all threads, each caller in a thread of its own.
fn work_all<R: Threads + Wait + Sync>(rt: &R, desk: &Desk, hotel: &Hotel, callers: &mut [Caller])
    requires { All (λ c. IsPassOf desk.now hotel.now.house hotel.now.start c.pass) callers.old }
{
    let threads = callers.len().max(1);
    for_each_mut(
        rt,
        callers,
        threads,
        &|_, caller| work(rt, desk, hotel, caller),
    );
}

/// Eight callers with no answer yet.
fn eight<R: Wait>(
    rt: &R,
    alloc: Global,
    desk: &Desk,
    hotel: &Hotel,
    opener: &mut Pass,
) -> Result<Vec<Caller>, Fail>
    requires { IsPassOf desk.now hotel.now.house hotel.now.start opener.old × (opener.old.caller ≡ 0) }
    ensures opener { IsPassOf desk.now hotel.now.house hotel.now.start opener.new × (opener.new.caller ≡ 0) }
    ensures callers { IfOk result (λ v. All (λ c. IsPassOf desk.now hotel.now.house hotel.now.start c.pass) v.items) }
{
    let mut callers = Vec::new(alloc);
    for _ in 0..8u32 {
        let answers = Vec::with_capacity(alloc, CALLS)?;
        let pass = next(rt, alloc, desk, hotel, opener)?;
        callers.push(Caller { pass, answers })?;
    }
    Ok(callers)
}

/// Wants the entries of the callers from 1 on to be what their threads were answered, in order, and no more.
fn compare<R: Abort>(rt: &R, book: &Book, callers: &[Caller]) {
    let mut counts = [0usize; 64];
    for place in 0..book.length() {
        let Some(entry) = book.entry(place) else {
            continue;
        };
        let caller = entry.caller as usize;
        if !matches!(entry.act, Act::Do(_)) || caller == 0 || caller >= 64 {
            continue;
        }
        let nth = counts[caller];
        let answered = match callers.get(caller - 1) {
            Some(caller) => caller.answers.get(nth).copied(),
            None => None,
        };
        assert_eq!(rt; answered, Some(Answer::Logged(entry.reply)));
        counts[caller] = nth.wrapping_add(1);
    }
    for caller in 1..9usize {
        assert_eq!(rt; counts[caller], CALLS);
    }
}

/// Whether the judge finds a book's history legal, as it stands in its journal.
fn is_legal<L: Ledger>(alloc: Global, house: House, book: &Book, blank: Blank) -> Result<bool, Fail>
    requires name { blank.name ≡ L.name }
    requires parts { blank.parts ≡ L.parts }
    requires some { 0 < blank.parts }
{
    let mut sink = MemorySink::new(Vec::new(alloc));
    write(alloc, book, &mut sink)?;
    let journal = read(alloc, sink.written())?;
    let mut steps: Steps<L> = Steps::new(blank);
    match judge(alloc, house, journal, &mut steps)? {
        Judgement::Legal(again) => Ok(again.length() == book.length()),
        Judgement::NotLegal { .. } => Ok(false),
    }
}

#[test]
fn eight_threads_at_one_desk(rt: HostRuntime) -> Result<(), Fail> {
    let alloc = rt.alloc();
    let limits = Limits {
        stale_after: 1_000,
        entries: 1_000,
        ..LIMITS
    };
    let (hotel, desk, mut opener) = open(alloc, THREE_NIGHTS, limits)?;
    let mut callers = eight(&rt, alloc, &desk, &hotel, &mut opener)?;
    work_all(&rt, &desk, &hotel, &mut callers);
    let book = desk.close(&rt, opener);
    assert_eq!(rt; book.length(), 1 + 8 + 8 * 100);
    compare(&rt, &book, &callers);
    let Hotel { house, start: _ } = hotel;
    assert!(rt; is_legal::<Brand>(alloc, house, &book, Blank::new(1))?);
    Ok(())
}

#[test]
fn the_last_room_from_two_threads(rt: HostRuntime) -> Result<(), Fail> {
    let alloc = rt.alloc();
    let (hotel, desk, mut opener) = open(alloc, ONE_ROOM, LIMITS)?;
    let mut one = next(&rt, alloc, &desk, &hotel, &mut opener)?;
    let mut other = next(&rt, alloc, &desk, &hotel, &mut opener)?;
    let book = Command::Book { stay: 0 };
    let (first, second) = join(
        &rt,
        || ask(&rt, &desk, &hotel, &mut one, book),
        || ask(&rt, &desk, &hotel, &mut other, book),
    );
    let accepted = Some(Answer::Logged(Reply::Accepted { vector: 0, sum: 50 }));
    let no_room = Some(Answer::Logged(Reply::NoRoom {
        vector: 0,
        sum: 50,
        night: 0,
    }));
    assert!(rt; first == accepted && second == no_room || first == no_room && second == accepted);
    Ok(())
}
