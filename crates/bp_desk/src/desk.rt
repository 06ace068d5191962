//! The desk that callers share: its opening and its end, the passes to it, and a call at a turn of its own.
ghost use Rattle.std.specs.Prelude.{◌≡◌, ◌≢◌, ◌≤◌, ◌↔◌, ℕ, List, ◌∷◌, [], false, Err, IfOk, OnErr, IsOk, IsTrue};
ghost use Rattle.std.specs.Arc.{arc_value};
ghost use Rattle.bp_types.specs.Claim.{IsCertificateOf};
ghost use Rattle.bp_types.specs.House.{Inn, opening};
ghost use Rattle.bp_turn.specs.Prefix.{IsPrefix, longer};
ghost use Rattle.bp_turn.specs.Seat.{SeatState};
ghost use Rattle.bp_core.specs.declared.call.Call.TheVariants.{Do, Publish, Enrol, Leave};
ghost use Rattle.bp_core.specs.declared.call.Answer.TheVariants.{Logged};
ghost use Rattle.bp_core.specs.declared.line.Act.TheVariants.{Do as DoAct};
ghost use Rattle.bp_core.specs.declared.line.Reply.TheVariants.{Done as DoneReply};
ghost use Rattle.bp_core.specs.declared.line.Line.{Line};
ghost use Rattle.bp_core.specs.Lines.{calls};
ghost use Rattle.bp_core.specs.Callers.{greatest_caller};
ghost use Rattle.bp_core.specs.Acting.{opening_line, IsCallRight};
ghost use Rattle.bp_core.specs.Legal.{IsLegal, is_in_range};
ghost use Rattle.bp_desk.specs.Newest.{IsNewest};
ghost use Rattle.bp_desk.specs.Passes.{HasAccounts, house_of, pass_of, opener, newcomer, IsIdle};
ghost use Rattle.bp_desk.specs.Calling.{MayMake, IsCalled, AddsCall, HasTurn, is_logged, joined};

use crate::newest::Newest;
use crate::pass::{Left, Pass};
use crate::shared::Shared;
use bp_board::Board;
use bp_core::{Answer, Book, Call};
use bp_turn::{Turn, TurnSeat};
use bp_types::limits::CALLERS;
use bp_types::{Command, House, Memory, Quoted};
use std::alloc::Global;
use std::marker::Model;
use std::sync::{Arc, Wait};

/// A desk that many callers share. Contracts see which desk it is, and passes name it by that.
///
/// The book stands under a ticket lock: turns are had in the order of their tickets.
#[derive(Drop)]
pub struct Desk {
    pub(crate) turn: Turn<Shared>,
}

impl Model for Desk {
    ghost use Rattle.atomic_table.specs.Seated.{TableId, table_id_coded};

    ghost Value = { TableId };

    ghost coded = { table_id_coded };

    ghost view = { λ d. d.turn };
}

/// Why nobody was enrolled. Nothing was logged, and no number is gone.
#[derive(Clone, Copy, Debug, PartialEq, Eq)]
pub enum EnrolError {
    /// All numbers below `CALLERS` were handed out.
    CallersFull,
    /// There was no memory for the pass.
    Memory,
}

impl Desk {
    /// Opens the desk of a house with a vector for position 0, and gives the opener's pass. All room of the book is
    /// taken here; the one error is `Memory`.
    pub fn new(alloc: Global, house: House, board: Arc<Board>) -> Result<(Desk, Pass), Memory>
        requires position { (arc_value board).position ≡ 0 }
        requires certificate { IsCertificateOf (opening house) (arc_value board).certificate }
        ensures { IfOk result (λ r. r.1 ≡ opener r.0 house (opening_line (arc_value board))) }
    {
        let book = Book::new(alloc, house, board)?;
        let _length = book.length();
        let newest = Newest::of(alloc, &book)?;
        let book = Box::new(alloc, book)?;
        match Turn::new(alloc, Shared { book }) {
            Ok((turn, seat)) => Ok((
                Desk { turn },
                Pass {
                    seat,
                    caller: 0,
                    next: 1,
                    newest,
                },
            )),
            Err(_) => Err(Memory),
        }
    }

    /// Makes a command, and answers what the book answers at this call's turn; a quote goes with a Group alone.
    pub fn command<R: Wait>(
        &self,
        rt: &R,
        pass: &mut Pass,
        command: Command,
        quoted: Option<Quoted>,
    ) -> Answer
        requires desk { pass.old.desk ≡ self.now }
        requires range { IsTrue (is_in_range pass.old.house (DoAct command)) }
        requires right { IsCallRight pass.old.house pass.old.seen (Do command quoted) }
        ensures called { IsCalled pass.old pass.new (Do command quoted) result }
        ensures calls { AddsCall pass.old pass.new (Do command quoted) result }
    {
        let caller = pass.caller;
        let call = Call::Do { command, quoted };
        self.make(rt, &mut pass.seat, &mut pass.newest, caller, call)
    }

    /// Publishes a board, and answers what the book answers at this call's turn. From the last vector's position to the
    /// board's own at least so many changes must stand.
    pub(crate) fn post<R: Wait>(
        &self,
        rt: &R,
        pass: &mut Pass,
        board: Arc<Board>,
        least: u64,
    ) -> Answer
        requires desk { pass.old.desk ≡ self.now }
        requires right { IsCallRight pass.old.house pass.old.seen (Publish board least) }
        ensures called { IsCalled pass.old pass.new (Publish board least) result }
        ensures calls { AddsCall pass.old pass.new (Publish board least) result }
    {
        let call = Call::Publish { board, least };
        self.make(rt, &mut pass.seat, &mut pass.newest, pass.caller, call)
    }

    /// A pass for a new caller, with the next number, of which this is the first entry. Only the opener's pass hands
    /// numbers out. After an error nothing was logged, and no number is gone.
    pub fn enrol<R: Wait>(&self, rt: &R, alloc: Global, pass: &mut Pass) -> Result<Pass, EnrolError>
        requires desk { pass.old.desk ≡ self.now }
        requires opener { pass.old.caller ≡ 0 }
        ensures enrolled { IfOk result (λ p. (rest : List ℕ) × (pass.old.free ≡ p.caller ∷ rest)
            × (pass.new ≡ record pass.old { free = rest })
            × IsCalled (newcomer pass.old p.caller) p Enrol (Logged DoneReply)) }
        ensures calls { IfOk result (λ p. AddsCall (newcomer pass.old p.caller) p Enrol (Logged DoneReply)) }
        ensures number { IfOk result (λ p. (1 ≤ p.caller) × (p.caller ≤ greatest_caller)) }
        ensures refused { OnErr result (pass.new ≡ pass.old) }
        ensures full { (result ≡ Err EnrolError.CallersFull) ↔ (pass.old.free ≡ []) }
    {
        if pass.next >= CALLERS as u32 {
            return Err(EnrolError::CallersFull);
        }
        let Ok(newest) = pass.newest.copy(alloc) else {
            return Err(EnrolError::Memory);
        };
        Ok(self.seat_next(rt, alloc, pass, newest))
    }

    /// Seats the next caller, which has seen what the opener's pass has.
    fn seat_next<R: Wait>(&self, rt: &R, alloc: Global, pass: &mut Pass, newest: Newest) -> Pass
        requires desk { pass.old.desk ≡ self.now }
        requires opener { pass.old.caller ≡ 0 }
        requires some { pass.old.free ≢ [] }
        requires newest { IsNewest pass.old.house pass.old.seen newest }
        ensures enrolled { (rest : List ℕ) × (pass.old.free ≡ result.caller ∷ rest)
            × (pass.new ≡ record pass.old { free = rest })
            × IsCalled (newcomer pass.old result.caller) result Enrol (Logged DoneReply) }
        ensures calls { AddsCall (newcomer pass.old result.caller) result Enrol (Logged DoneReply) }
        ensures number { (1 ≤ result.caller) × (result.caller ≤ greatest_caller) }
    {
        let mut newest = newest;
        let caller = pass.next;
        pass.seat.facts();
        let Ok(mut seat) = self.turn.split(alloc, &mut pass.seat, caller) else {
            unreachable!()
        };
        pass.next = caller + 1;
        let _answer = self.make(rt, &mut seat, &mut newest, caller, Call::Enrol);
        Pass {
            seat,
            caller,
            next: CALLERS as u32,
            newest,
        }
    }

    /// Logs the caller's last entry. It is never refused.
    pub fn leave<R: Wait>(&self, rt: &R, pass: Pass) -> Left
        requires desk { pass.desk ≡ self.now }
        requires caller { pass.caller ≢ 0 }
        ensures called { IsCalled pass result Leave (Logged DoneReply) }
        ensures calls { AddsCall pass result Leave (Logged DoneReply) }
    {
        let Pass {
            mut seat,
            caller,
            next: _,
            mut newest,
        } = pass;
        let _answer = self.make(rt, &mut seat, &mut newest, caller, Call::Leave);
        Left { seat, newest }
    }

    /// Ends a caller that has left in a pass, which has then seen the longer of the two histories. It does not wait.
    pub fn join(&self, pass: &mut Pass, left: Left)
        requires desk { (pass.old.desk ≡ self.now) × (left.desk ≡ self.now) }
        ensures begins { IsPrefix pass.old.seen pass.new.seen × IsPrefix left.seen pass.new.seen }
        ensures pass { pass.new ≡ joined pass.old left }
        ensures house { left.house ≡ pass.old.house }
    {
        let Left { seat, newest } = left;
        pass.seat.facts();
        self.turn.join(&mut pass.seat, seat);
        pass.seat.facts();
        pass.newest.hear(&newest);
    }

    /// Both passes have then seen the longer of the two histories that they had seen. It does not wait, and the answer
    /// is never `Memory`.
    pub fn meet(&self, alloc: Global, pass: &mut Pass, other: &mut Pass) -> Result<(), Memory>
        requires desk { (pass.old.desk ≡ self.now) × (other.old.desk ≡ self.now) }
        ensures ok { IsOk result }
        ensures begins { IsPrefix pass.old.seen pass.new.seen × IsPrefix other.old.seen pass.new.seen }
        ensures pass { pass.new ≡ record pass.old { seen = longer pass.old.seen other.old.seen } }
        ensures other { other.new ≡ record other.old { seen = pass.new.seen } }
        ensures house { other.old.house ≡ pass.old.house }
    {
        pass.seat.facts();
        other.seat.facts();
        let Ok(()) = self.turn.meet(alloc, &mut pass.seat, &mut other.seat) else {
            unreachable!()
        };
        pass.seat.facts();
        other.seat.facts();
        pass.newest.hear(&other.newest);
        other.newest.hear(&pass.newest);
        Ok(())
    }

    /// Ends the desk at a last turn of the opener's, and gives its book.
    pub fn close<R: Wait>(self, rt: &R, pass: Pass) -> Book
        requires desk { pass.desk ≡ self }
        requires opener { pass.caller ≡ 0 }
        ensures house { result.house ≡ pass.house }
        ensures begins { IsPrefix pass.seen result.history }
        ensures legal { IsLegal result.house result.history }
        ensures accounts { HasAccounts (record pass { seen = result.history }) }
    {
        let Pass {
            mut seat,
            caller: _,
            next: _,
            newest: _,
        } = pass;
        let shared = self.turn.take(rt, &mut seat);
        seat.facts();
        let book = Box::into_inner(shared.book);
        let _length = book.length();
        book
    }

    /// Makes a call at a turn of its own. Where the last vector is another one afterwards than the pass knew, its
    /// prices are copied, in time that grows with the nights.
    fn make<R: Wait>(
        &self,
        rt: &R,
        seat: &mut TurnSeat<Shared>,
        newest: &mut Newest,
        caller: u32,
        call: Call,
    ) -> Answer
        requires lock { seat.old.lock ≡ self.now }
        requires number { seat.old.number ≡ caller }
        requires idle { IsIdle seat.old }
        requires may { MayMake (house_of seat.old) seat.old.seen seat.old.number call }
        requires newest { IsNewest (house_of seat.old) seat.old.seen newest.old }
        ensures called { IsCalled (pass_of seat.old) (pass_of seat.new) call result }
        ensures calls { AddsCall (pass_of seat.old) (pass_of seat.new) call result }
        ensures idle { IsIdle seat.new }
        ensures before { calls seat.old.seen seat.old.number ≡ seat.old.own }
        ensures newest { IsNewest (house_of seat.new) seat.new.seen newest.new }
    {
        let mut shared = self.take(rt, seat);
        let answer = shared.book.act(caller, call);
        newest.learn(&shared.book);
        if is_logged(&answer) {
            self.turn.give_logged(seat, shared);
        } else {
            self.turn.give(seat, shared);
        }
        answer
    }

    /// Takes a turn, and the book with it.
    pub(crate) fn take<R: Wait>(&self, rt: &R, seat: &mut TurnSeat<Shared>) -> Shared
        requires lock { seat.old.lock ≡ self.now }
        requires idle { IsIdle seat.old }
        ensures { HasTurn seat.old seat.new result }
    {
        seat.facts();
        let shared = self.turn.take(rt, seat);
        seat.facts();
        let _length = shared.book.length();
        shared
    }

    /// Gives the book back as it was, after the pass has learnt its last vector.
    pub(crate) fn give(&self, seat: &mut TurnSeat<Shared>, newest: &mut Newest, shared: Shared)
        requires lock { seat.old.lock ≡ self.now }
        requires turn { (s : SeatState Inn Line) × HasTurn s seat.old shared × IsIdle s ×
            IsNewest (house_of s) s.seen newest.old }
        ensures seat { seat.new ≡ record seat.old { has_turn = false } }
        ensures newest { IsNewest (house_of seat.new) seat.new.seen newest.new }
    {
        newest.learn(&shared.book);
        self.turn.give(seat, shared);
    }
}

/// Whether a call was logged.
fn is_logged(answer: &Answer) -> bool
    ensures { result ≡ is_logged answer.now }
{
    matches!(answer, Answer::Logged(_))
}
