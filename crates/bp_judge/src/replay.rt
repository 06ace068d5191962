//! The judge: a journal written anew, line by line.
ghost use Rattle.std.specs.Prelude.{◌≡◌, ◌≢◌, ◌∷◌, [], false, None, IfOk, IsTrue, MatchBool, MatchOption, MatchResult};
ghost use Rattle.bp_types.specs.declared.command.Command.TheVariants.{Group};
ghost use Rattle.bp_flow.specs.Solvers.{CountsUpTo};
ghost use Rattle.bp_core.specs.declared.line.Act.TheVariants.{Do as DoAct, Publish as PublishAct};
ghost use Rattle.bp_core.specs.declared.line.Reply.TheVariants.{Vector};
ghost use Rattle.bp_core.specs.declared.call.Call.TheVariants.{Do};
ghost use Rattle.bp_core.specs.Acting.{MayCall, act_of};
ghost use Rattle.bp_core.specs.Callers.{may_log};
ghost use Rattle.bp_core.specs.Legal.{opens, is_in_range};
ghost use Rattle.bp_judge.specs.Judging.{IsFirstCause, IsJudged};
ghost use Rattle.bp_judge.specs.Replays.{IsReplay, HasRead, GoesOn, IsAsked, IsPlain, IsOther};
ghost use Rattle.bp_judge.specs.Searches.{is_group, HasNoGroup, searches_of, most_searches};

use crate::certified::certified;
use crate::course::Course;
use crate::trail::Trail;
use crate::{Cause, Judgement};
use bp_core::{Act, Answer, Book, Call, Line, Reply, is_in_range};
use bp_journal::{Journal, JournalLines};
use bp_types::{Command, House, Memory, Span, Steps};
use std::alloc::Global;
use std::sync::ledger::Ledger;

/// A book that is written anew, and what is carried along.
#[derive(Drop)]
pub(crate) struct Replay {
    pub(crate) book: Book,
    pub(crate) trail: Trail,
}

/// Judges a journal: whether it is a legal history of the house, or the first place that breaks a rule, with the first
/// rule that it breaks. The one error is `Memory`, and then nothing is said of the journal.
///
/// Each certificate moves into the board that it makes, and is checked in time that grows with nights plus stays. Where
/// there is no Group, no search is made; else a solver is carried from one Group to the next where few units were moved
/// in between, and only where many were is the instance solved from nothing.
pub fn judge<L: Ledger>(
    alloc: Global,
    house: House,
    journal: Journal,
    steps: &mut Steps<L>,
) -> Result<Judgement, Memory>
    ensures judged { IfOk result (IsJudged house journal) }
    ensures unsearched { HasNoGroup journal → steps.new ≡ steps.old }
    ensures counted { CountsUpTo steps.old steps.new (most_searches house journal) }
{
    judge_lines(alloc, house, journal.into_lines(), steps)
}

/// Judges the lines that are left to be given.
fn judge_lines<L: Ledger>(
    alloc: Global,
    house: House,
    mut lines: JournalLines,
    steps: &mut Steps<L>,
) -> Result<Judgement, Memory>
    ensures judged { IfOk result (IsJudged house lines) }
    ensures unsearched { HasNoGroup lines → steps.new ≡ steps.old }
    ensures counted { CountsUpTo steps.old steps.new (most_searches house lines) }
{
    let Some(first) = lines.next() else {
        return Ok(Judgement::NotLegal {
            place: 0,
            cause: Cause::Opening,
        });
    };
    let mut replay = match opened(alloc, house, first)? {
        Ok(replay) => replay,
        Err(cause) => return Ok(Judgement::NotLegal { place: 0, cause }),
    };
    while let Some(line) = lines.next() {
        let place = replay.book.length();
        if let Some(cause) = replay.read(alloc, line, steps)? {
            return Ok(Judgement::NotLegal { place, cause });
        }
    }
    Ok(Judgement::Legal(replay.book))
}

/// The replay of the first line, or its cause.
fn opened(alloc: Global, house: House, line: Line) -> Result<Result<Replay, Cause>, Memory>
    ensures { IfOk result (λ r. MatchResult r
        (λ p. IsReplay p × (p.book ≡ record { house = house; history = line ∷ [] }))
        (IsFirstCause house [] line)) }
{
    bp_core::law::instance_at_start();
    bp_core::law::last_line_is_legal();
    if !opens(&line) {
        return Ok(Err(Cause::Opening));
    }
    let reply = line.entry.reply;
    let instance = house.instance(alloc)?;
    let Some(board) = certified(alloc, &instance, 0, line.certificate)? else {
        return Ok(Err(Cause::Certificate));
    };
    if !is_vector(reply, 0) {
        return Ok(Err(Cause::Reply));
    }
    let book = Book::new(alloc, house, board)?;
    let course = Course::new(alloc, instance, 0)?;
    let trail = Trail {
        course,
        solved: None,
    };
    Ok(Ok(Replay { book, trail }))
}

impl Replay {
    /// Reads the next line: its cause, or the book has it.
    fn read<L: Ledger>(
        &mut self,
        alloc: Global,
        line: Line,
        steps: &mut Steps<L>,
    ) -> Result<Option<Cause>, Memory>
        requires { IsReplay self.old }
        ensures read { IfOk result (HasRead self.old self.new line) }
        ensures unsearched { is_group line.entry.act ≡ false → steps.new ≡ steps.old }
        ensures counted { CountsUpTo steps.old steps.new
            (searches_of self.old.book.house self.old.book.history line.entry.act) }
    {
        let caller = line.entry.caller;
        if !self.book.may_log(caller, line.entry.act) {
            return Ok(Some(Cause::Caller));
        }
        if !is_in_range(self.book.house(), line.entry.act) {
            return Ok(Some(Cause::Range));
        }
        match line.entry.act {
            Act::Do(command) => self.command(alloc, &line, command, steps),
            Act::Publish { position } => self.publish(alloc, line, position),
            Act::Enrol => Ok(self.plain(&line, Call::Enrol)),
            Act::Leave => Ok(self.plain(&line, Call::Leave)),
        }
    }

    /// Reads a command.
    fn command<L: Ledger>(
        &mut self,
        alloc: Global,
        line: &Line,
        command: Command,
        steps: &mut Steps<L>,
    ) -> Result<Option<Cause>, Memory>
        requires replay { IsReplay self.old }
        requires act { line.now.entry.act ≡ DoAct command }
        requires caller { IsTrue (may_log self.old.book.history line.now.entry.caller line.now.entry.act) }
        requires range { IsTrue (is_in_range self.old.book.house line.now.entry.act) }
        ensures read { IfOk result (HasRead self.old self.new line.now) }
        ensures unsearched { is_group (DoAct command) ≡ false → steps.new ≡ steps.old }
        ensures counted { CountsUpTo steps.old steps.new
            (searches_of self.old.book.house self.old.book.history (DoAct command)) }
    {
        bp_core::law::last_line_is_legal();
        bp_core::law::one_reply();
        match self.ask(alloc, line.entry.caller, command, steps)? {
            Answer::Logged(reply) => Ok(compared(line, reply)),
            Answer::HistoryFull => Ok(Some(Cause::Limit)),
            Answer::Behind { .. } => Ok(Some(Cause::Behind)),
            _ => unreachable!(),
        }
    }

    /// Makes a command, with a quote where it needs one.
    fn ask<L: Ledger>(
        &mut self,
        alloc: Global,
        caller: u32,
        command: Command,
        steps: &mut Steps<L>,
    ) -> Result<Answer, Memory>
        requires replay { IsReplay self.old }
        requires may { MayCall self.old.book caller (Do command None) }
        ensures asked { IfOk result (IsAsked self.old.book self.new.book caller command) }
        ensures replay { IfOk result (GoesOn self.new) }
        ensures unsearched { is_group (DoAct command) ≡ false → steps.new ≡ steps.old }
        ensures counted { CountsUpTo steps.old steps.new
            (searches_of self.old.book.house self.old.book.history (DoAct command)) }
    {
        bp_core::law::answers_say();
        match command {
            Command::Group {
                span,
                rooms,
                amount,
            } => self.ask_group(alloc, caller, span, rooms, amount, steps),
            _ => {
                let quoted = None;
                Ok(self.book.act(caller, Call::Do { command, quoted }))
            }
        }
    }

    /// Makes a Group, with a quote as of this moment where there are rooms for it.
    fn ask_group<L: Ledger>(
        &mut self,
        alloc: Global,
        caller: u32,
        span: Span,
        rooms: u64,
        amount: u64,
        steps: &mut Steps<L>,
    ) -> Result<Answer, Memory>
        requires replay { IsReplay self.old }
        requires may { MayCall self.old.book caller (Do (Group span rooms amount) None) }
        ensures asked { IfOk result (IsAsked self.old.book self.new.book caller (Group span rooms amount)) }
        ensures replay { IfOk result (GoesOn self.new) }
        ensures counted { CountsUpTo steps.old steps.new
            (searches_of self.old.book.house self.old.book.history (DoAct (Group span rooms amount))) }
    {
        bp_core::law::answers_say();
        let command = Command::Group {
            span,
            rooms,
            amount,
        };
        let quoted = None;
        let answer = self.book.act(caller, Call::Do { command, quoted });
        if !matches!(answer, Answer::Unquoted) {
            return Ok(answer);
        }
        let quote = self
            .trail
            .quote(alloc, &self.book, span, rooms, amount, steps)?;
        let quoted = Some(quote);
        Ok(self.book.act(caller, Call::Do { command, quoted }))
    }

    /// Reads an Enrol or a Leave.
    fn plain(&mut self, line: &Line, call: Call) -> Option<Cause>
        requires replay { IsReplay self.old }
        requires plain { IsPlain call }
        requires act { line.now.entry.act ≡ act_of call }
        requires caller { IsTrue (may_log self.old.book.history line.now.entry.caller line.now.entry.act) }
        ensures { HasRead self.old self.new line.now result }
    {
        bp_core::law::last_line_is_legal();
        bp_core::law::one_reply();
        match self.book.act(line.entry.caller, call) {
            Answer::Logged(reply) => compared(line, reply),
            _ => unreachable!(),
        }
    }

    /// Reads a Publish.
    fn publish(&mut self, alloc: Global, line: Line, position: u64) -> Result<Option<Cause>, Memory>
        requires replay { IsReplay self.old }
        requires act { line.entry.act ≡ PublishAct position }
        requires caller { IsTrue (may_log self.old.book.history line.entry.caller line.entry.act) }
        ensures { IfOk result (HasRead self.old self.new line) }
    {
        let number = self.book.vectors();
        if number == self.book.house().limits().publications {
            return Ok(Some(Cause::Limit));
        }
        if position > self.book.length() {
            return Ok(Some(Cause::Position));
        }
        let last = self.book.last_board().position();
        if self.book.changes_up_to(last, position) == 0 {
            return Ok(Some(Cause::Position));
        }
        let entry = line.entry;
        self.trail.course.advance(&self.book, position);
        let instance = &self.trail.course.instance;
        let Some(board) = certified(alloc, instance, position, line.certificate)? else {
            return Ok(Some(Cause::Certificate));
        };
        if !is_vector(entry.reply, number) {
            return Ok(Some(Cause::Reply));
        }
        self.book
            .act(entry.caller, Call::Publish { board, least: 1 });
        Ok(None)
    }
}

/// Whether the line may be the first one.
fn opens(line: &Line) -> bool
    ensures { result ≡ opens [] line.now }
{
    match line.entry.act {
        Act::Publish { position } => line.entry.caller == 0 && position == 0,
        _ => false,
    }
}

/// Compares a line with the reply of its moment.
fn compared(line: &Line, reply: Reply) -> Option<Cause>
    ensures { MatchOption result ((line.now.certificate ≡ None) ×
        (line.now.entry.reply ≡ reply)) (IsOther line.now reply) }
{
    if line.certificate.is_some() {
        return Some(Cause::Certificate);
    }
    if line.entry.reply != reply {
        return Some(Cause::Reply);
    }
    None
}

/// Whether the reply is the number of a vector.
fn is_vector(reply: Reply, number: u64) -> bool
    ensures { MatchBool result (reply ≡ Vector number) (reply ≢ Vector number) }
{
    reply == Reply::Vector { number }
}
