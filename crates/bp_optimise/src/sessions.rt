//! A session beside other callers: from its list of commands to its Leave.
ghost use Rattle.std.specs.Prelude.{◌≡◌, ◌≢◌, ◌≤◌, ◌++◌, true, false, take, IsTrue};
ghost use Rattle.bp_types.specs.declared.command.Command.TheVariants.{Book, Group};
ghost use Rattle.bp_types.specs.declared.command.Command.{Command};
ghost use Rattle.bp_core.specs.Legal.{is_command_in_range};
ghost use Rattle.bp_optimise.specs.Following.{GoesWith};
ghost use Rattle.bp_optimise.specs.Acts.{HasActed, commands_in};
ghost use Rattle.bp_optimise.specs.Sessions.{AreInRange, IsStop, IsSession};
ghost use Rattle.bp_optimise.specs.Tries.{is_plain, GoesOn, HasAllVectors, IsOutcome, IsAttempt};

use crate::optimiser::Optimiser;
use crate::tries::{Attempt, Outcome};
use bp_core::Answer;
use bp_desk::{BookStop, Desk, GroupStop, Left, Pass};
use bp_edges::Gate;
use bp_types::{Command, Span, Steps};
use std::alloc::Global;
use std::sync::Wait;
use std::sync::ledger::Ledger;

/// Why a session made no more of its commands.
#[derive(Clone, Copy, Debug, PartialEq, Eq)]
pub enum Stop {
    /// It made all of them.
    Finished,
    /// As many commands as the limits allow are logged.
    HistoryFull,
    /// The next is a Book that needs a new vector, and as many as the limits allow are published.
    PublicationsFull,
    /// A round or a group's quote found no memory.
    Memory,
}

/// A session that has left, how many of its commands it made, and why no more.
#[derive(Drop)]
pub struct SessionEnd {
    /// Its caller, which has left.
    pub left: Left,
    /// How many of its commands were made: the first ones, each logged.
    pub done: u64,
    /// Why no more were made.
    pub stop: Stop,
}

/// Makes the commands in order, and leaves. Whatever stops it, it leaves, and tells why it made no more.
///
/// The gate is passed before each command. A Book that is behind is tried again after a round for `lead` changes; a
/// Group is quoted by the session's own optimiser, in the unit of the house, and tried again where the quote is stale.
pub fn session<R: Wait, G: Gate, L: Ledger>(
    rt: &R,
    alloc: Global,
    desk: &Desk,
    pass: Pass,
    commands: &[Command],
    optimiser: Optimiser,
    lead: u64,
    unit: u64,
    gate: &G,
    steps: &mut Steps<L>,
) -> SessionEnd
    requires desk { pass.desk ≡ desk.now }
    requires caller { pass.caller ≢ 0 }
    requires range { AreInRange pass.house commands.now }
    requires goes { GoesWith pass.house pass.seen optimiser }
    requires lead { 1 ≤ lead }
    requires unit { unit ≡ pass.house.limits.unit }
    ensures session { IsSession lead commands.now pass result.left result.done result.stop }
{
    let mut pass = pass;
    let mut optimiser = optimiser;
    let (done, stop) = make_all(
        rt,
        alloc,
        desk,
        &mut pass,
        commands,
        &mut optimiser,
        lead,
        unit,
        gate,
        steps,
    );
    SessionEnd {
        left: desk.leave(rt, pass),
        done: done as u64,
        stop,
    }
}

/// Makes the commands in order, and says how many were made and why no more.
fn make_all<R: Wait, G: Gate, L: Ledger>(
    rt: &R,
    alloc: Global,
    desk: &Desk,
    pass: &mut Pass,
    commands: &[Command],
    optimiser: &mut Optimiser,
    lead: u64,
    unit: u64,
    gate: &G,
    steps: &mut Steps<L>,
) -> (usize, Stop)
    requires desk { pass.old.desk ≡ desk.now }
    requires range { AreInRange pass.old.house commands.now }
    requires goes { GoesWith pass.old.house pass.old.seen optimiser.old }
    requires lead { 1 ≤ lead }
    requires unit { unit ≡ pass.old.house.limits.unit }
    ensures acted { HasActed lead pass.old pass.new }
    ensures made { commands_in pass.new.calls ≡ commands_in pass.old.calls ++ take result.0 commands.now }
    ensures stop { IsStop pass.new.house commands.now pass.new.seen result.0 result.1 }
{
    let caller = pass.caller();
    let mut done = 0;
    while done < commands.len() {
        gate.arrive(rt, caller, done as u64 + 1);
        match make_one(
            rt,
            alloc,
            desk,
            pass,
            commands[done],
            optimiser,
            lead,
            unit,
            steps,
        ) {
            Outcome::Made => done += 1,
            Outcome::HistoryFull => return (done, Stop::HistoryFull),
            Outcome::PublicationsFull => return (done, Stop::PublicationsFull),
            Outcome::Memory => return (done, Stop::Memory),
        }
    }
    (done, Stop::Finished)
}

/// Makes a command.
fn make_one<R: Wait, L: Ledger>(
    rt: &R,
    alloc: Global,
    desk: &Desk,
    pass: &mut Pass,
    command: Command,
    optimiser: &mut Optimiser,
    lead: u64,
    unit: u64,
    steps: &mut Steps<L>,
) -> Outcome
    requires desk { pass.old.desk ≡ desk.now }
    requires range { IsTrue (is_command_in_range pass.old.house command) }
    requires goes { GoesWith pass.old.house pass.old.seen optimiser.old }
    requires lead { 1 ≤ lead }
    requires unit { unit ≡ pass.old.house.limits.unit }
    ensures goes_on { GoesOn lead pass.old pass.new optimiser.new }
    ensures outcome { IsOutcome command pass.old pass.new result }
{
    if is_plain(command) {
        make_plain(rt, desk, pass, command, optimiser, lead)
    } else {
        make_again(rt, alloc, desk, pass, command, optimiser, lead, unit, steps)
    }
}

/// Whether a command needs neither a vector with few changes after it nor a quote.
fn is_plain(command: Command) -> bool
    ensures { result ≡ is_plain command }
{
    !matches!(command, Command::Book { .. } | Command::Group { .. })
}

/// Makes a command that needs neither a vector nor a quote.
fn make_plain<R: Wait>(
    rt: &R,
    desk: &Desk,
    pass: &mut Pass,
    command: Command,
    optimiser: &Optimiser,
    lead: u64,
) -> Outcome
    requires desk { pass.old.desk ≡ desk.now }
    requires range { IsTrue (is_command_in_range pass.old.house command) }
    requires plain { is_plain command ≡ true }
    requires goes { GoesWith pass.old.house pass.old.seen optimiser.now }
    ensures goes_on { GoesOn lead pass.old pass.new optimiser.now }
    ensures outcome { IsOutcome command pass.old pass.new result }
{
    match desk.command(rt, pass, command, None) {
        Answer::Logged(_) => Outcome::Made,
        Answer::HistoryFull => Outcome::HistoryFull,
        _ => unreachable!(),
    }
}

/// Tries a Book or a Group until it is made, or cannot be.
fn make_again<R: Wait, L: Ledger>(
    rt: &R,
    alloc: Global,
    desk: &Desk,
    pass: &mut Pass,
    command: Command,
    optimiser: &mut Optimiser,
    lead: u64,
    unit: u64,
    steps: &mut Steps<L>,
) -> Outcome
    requires desk { pass.old.desk ≡ desk.now }
    requires range { IsTrue (is_command_in_range pass.old.house command) }
    requires plain { is_plain command ≡ false }
    requires goes { GoesWith pass.old.house pass.old.seen optimiser.old }
    requires lead { 1 ≤ lead }
    requires unit { unit ≡ pass.old.house.limits.unit }
    ensures goes_on { GoesOn lead pass.old pass.new optimiser.new }
    ensures outcome { IsOutcome command pass.old pass.new result }
{
    let mut full = false;
    for _ in rt.forever() {
        match make_attempt(
            rt, alloc, desk, pass, command, optimiser, lead, unit, full, steps,
        ) {
            Attempt::Ended { outcome } => return outcome,
            Attempt::Again { full: now } => full = now,
        }
    }
    unreachable!()
}

/// Tries a Book or a Group once. Where `full`, the round before found no vector left.
fn make_attempt<R: Wait, L: Ledger>(
    rt: &R,
    alloc: Global,
    desk: &Desk,
    pass: &mut Pass,
    command: Command,
    optimiser: &mut Optimiser,
    lead: u64,
    unit: u64,
    full: bool,
    steps: &mut Steps<L>,
) -> Attempt
    requires desk { pass.old.desk ≡ desk.now }
    requires range { IsTrue (is_command_in_range pass.old.house command) }
    requires plain { is_plain command ≡ false }
    requires goes { GoesWith pass.old.house pass.old.seen optimiser.old }
    requires lead { 1 ≤ lead }
    requires unit { unit ≡ pass.old.house.limits.unit }
    requires full { full ≡ true → HasAllVectors pass.old }
    ensures goes_on { GoesOn lead pass.old pass.new optimiser.new }
    ensures attempt { IsAttempt command pass.old pass.new result }
{
    match command {
        Command::Group {
            span,
            rooms,
            amount,
        } => attempt_group(
            rt, alloc, desk, pass, span, rooms, amount, optimiser, lead, unit, steps,
        ),
        Command::Book { stay } => attempt_book(
            rt, alloc, desk, pass, stay, optimiser, lead, full, steps,
        ),
        _ => unreachable!(),
    }
}

/// Tries a Book. Where it is behind, a round comes before the next try; where the round before found no vector left,
/// there is no next one.
fn attempt_book<R: Wait, L: Ledger>(
    rt: &R,
    alloc: Global,
    desk: &Desk,
    pass: &mut Pass,
    stay: u32,
    optimiser: &mut Optimiser,
    lead: u64,
    full: bool,
    steps: &mut Steps<L>,
) -> Attempt
    requires desk { pass.old.desk ≡ desk.now }
    requires range { IsTrue (is_command_in_range pass.old.house (Book stay)) }
    requires goes { GoesWith pass.old.house pass.old.seen optimiser.old }
    requires lead { 1 ≤ lead }
    requires full { full ≡ true → HasAllVectors pass.old }
    ensures goes_on { GoesOn lead pass.old pass.new optimiser.new }
    ensures attempt { IsAttempt (Book stay) pass.old pass.new result }
{
    match desk.book(rt, pass, stay) {
        Ok(_) => Attempt::Ended {
            outcome: Outcome::Made,
        },
        Err(BookStop::HistoryFull) => Attempt::Ended {
            outcome: Outcome::HistoryFull,
        },
        Err(BookStop::Behind { .. }) => {
            if full {
                return Attempt::Ended {
                    outcome: Outcome::PublicationsFull,
                };
            }
            publish_again(rt, alloc, desk, pass, optimiser, lead, steps)
        }
    }
}

/// Makes a round before a Book is tried again, whatever the round is answered.
fn publish_again<R: Wait, L: Ledger>(
    rt: &R,
    alloc: Global,
    desk: &Desk,
    pass: &mut Pass,
    optimiser: &mut Optimiser,
    lead: u64,
    steps: &mut Steps<L>,
) -> Attempt
    requires desk { pass.old.desk ≡ desk.now }
    requires goes { GoesWith pass.old.house pass.old.seen optimiser.old }
    requires lead { 1 ≤ lead }
    ensures goes_on { GoesOn lead pass.old pass.new optimiser.new }
    ensures attempt { (command : Command) → IsAttempt command pass.old pass.new result }
{
    match optimiser.round(rt, alloc, desk, pass, lead, steps) {
        Ok(round) => Attempt::Again {
            full: round.found_none_left(),
        },
        Err(_) => Attempt::Ended {
            outcome: Outcome::Memory,
        },
    }
}

/// Tries a Group with a quote as of this moment; where a night lacks its units there is none.
fn attempt_group<R: Wait, L: Ledger>(
    rt: &R,
    alloc: Global,
    desk: &Desk,
    pass: &mut Pass,
    span: Span,
    rooms: u64,
    amount: u64,
    optimiser: &mut Optimiser,
    lead: u64,
    unit: u64,
    steps: &mut Steps<L>,
) -> Attempt
    requires desk { pass.old.desk ≡ desk.now }
    requires range { IsTrue (is_command_in_range pass.old.house (Group span rooms amount)) }
    requires goes { GoesWith pass.old.house pass.old.seen optimiser.old }
    requires unit { unit ≡ pass.old.house.limits.unit }
    ensures goes_on { GoesOn lead pass.old pass.new optimiser.new }
    ensures attempt { IsAttempt (Group span rooms amount) pass.old pass.new result }
{
    optimiser.advance(rt, desk, pass, steps);
    let Ok(quoted) = optimiser.quote_units(alloc, span, rooms, unit, steps) else {
        return Attempt::Ended {
            outcome: Outcome::Memory,
        };
    };
    match desk.group(rt, pass, span, rooms, amount, quoted) {
        Ok(_) => Attempt::Ended {
            outcome: Outcome::Made,
        },
        Err(GroupStop::HistoryFull) => Attempt::Ended {
            outcome: Outcome::HistoryFull,
        },
        Err(GroupStop::Unquoted | GroupStop::Stale { .. }) => Attempt::Again { full: false },
    }
}
