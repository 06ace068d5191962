//! The book of a house: each call is judged by the rules of the desk, answered, and logged with its reply.
ghost use Rattle.std.specs.Prelude.{
  ◌≡◌,
  ◌+◌,
  ◌<◌,
  ◌≤◌,
  ◌^◌,
  ◌++◌,
  ◌∷◌,
  [],
  Some,
  None,
  length,
  map,
  slice_get,
  vec_capacity,
  option_and_then,
  IfOk,
  IsTrue,
  MatchOption,
};
ghost use Rattle.std.specs.Option.{option_map};
ghost use Rattle.std.specs.Arc.{arc_value};
ghost use Rattle.bp_types.specs.declared.stay.Stay.{Stay};
ghost use Rattle.bp_types.specs.House.{opening, IsHouse};
ghost use Rattle.bp_types.specs.Spans.{first_short};
ghost use Rattle.bp_types.specs.Changes.{Leads};
ghost use Rattle.bp_types.specs.Claim.{IsCertificateOf};
ghost use Rattle.bp_core.specs.declared.line.Line.{Line};
ghost use Rattle.bp_board.specs.Posted.{Posted};
ghost use Rattle.bp_core.specs.Lines.{
  published_position,
  is_accepted,
  has_given_up,
  commands,
  vectors,
  certificate_at,
  boards,
  last_number,
  last_position,
  last_prices,
};
ghost use Rattle.bp_core.specs.Callers.{may_act, may_enrol, may_log, left_of};
ghost use Rattle.bp_core.specs.Instance.{rooms_at, sold_at, forecast_of, rate_of, instance_at, rooms_left_at};
ghost use Rattle.bp_core.specs.Changes.{changes_between, changes_after, deltas_between, resize_delta};
ghost use Rattle.bp_core.specs.Answer.{book_reply};
ghost use Rattle.bp_core.specs.Legal.{IsLegal};
ghost use Rattle.bp_core.specs.Deltas.{delta_list};
ghost use Rattle.bp_core.specs.Laws.{KeepsLimits};
ghost use Rattle.bp_core.specs.Log.{published_number};
ghost use Rattle.bp_core.specs.Roll.{was_given_up};
ghost use Rattle.bp_core.specs.Held.{IsHeld};
ghost use Rattle.bp_core.specs.Acting.{
  Diary,
  MayCall,
  MayDo,
  IsQuoteFor,
  IsQuoteRight,
  IsAnswered,
  IsDone,
  opening_line,
  plain_line,
};

use crate::deltas::Deltas;
use crate::log::Log;
use crate::roll::{Booking, Fate, Roll, Standing};
use crate::{Act, Answer, Call, Entry, Reply};
use bp_board::Board;
use bp_ledger::Ledger;
use bp_types::limits::{CALLERS, HUNDREDTHS, MOST_NIGHTS, MOST_ROOMS};
use bp_types::{Certificate, Change, Command, House, Memory, Quoted, Span};
use std::alloc::Global;
use std::marker::Model;
use std::sync::Arc;

/// The desk of a house: its history so far, each entry with the reply of its moment.
///
/// Contracts see the house and the history, in which each Publish has the certificate of its board.
///
/// What the house and the history say of rooms, forecasts and rates is kept beside them. So a call costs the same time
/// however long the history is, but for `changes` and `changes_until`, whose time grows with the entries that they
/// read.
#[derive(Drop)]
pub struct Book {
    house: House,
    log: Log,
    roll: Roll,
    /// The rooms and sold rooms of each night, in whole rooms.
    ledger: Ledger,
    /// The forecast of each stay, in units of the house.
    forecasts: Vec<u64>,
    /// The rate of each stay, in minor units of money.
    rates: Vec<u64>,
}

impl Model for Book {
    ghost use Rattle.bp_core.specs.Acting.{Diary};
    ghost use Rattle.bp_core.specs.Keeping.{AreInStep};

    ghost Value = { Diary };

    ghost view = { λ b. record { house = b.house; history = b.log.lines } };

    ghost invariant = { λ b. AreInStep b.house b.log b.roll b.ledger b.forecasts.items b.rates.items };
}

/// The number of the greatest caller.
const MOST_CALLERS: u32 = CALLERS as u32 - 1;

impl Book {
    /// The book of a house that opens with a vector, by caller 0 at position 0. All its room is taken here, for as many
    /// commands and vectors as the limits of the house allow; the one error is `Memory`.
    pub fn new(alloc: Global, house: House, board: Arc<Board>) -> Result<Book, Memory>
        requires position { (arc_value board).position ≡ 0 }
        requires certificate { IsCertificateOf (opening house) (arc_value board).certificate }
        ensures { IfOk result (λ b. b ≡ record { house = house; history = opening_line (arc_value board) ∷ [] }) }
    {
        let limits = house.limits();
        let lines = (limits.entries + limits.publications + 130) as usize;
        let mut log = Log::new(alloc, lines, limits.publications as usize)?;
        let roll = Roll::new(alloc, limits.entries as usize)?;
        let ledger = opening_ledger(alloc, &house)?;
        let forecasts = opening_forecasts(alloc, &house)?;
        let rates = opening_rates(alloc, &house)?;
        log.post(0, board);
        Ok(Book {
            house,
            log,
            roll,
            ledger,
            forecasts,
            rates,
        })
    }

    /// Answers a call. The history has one entry more exactly where the answer is `Logged`, and is else as before. It
    /// takes no memory. Its time grows with the levels of the ledger's tree; where rooms are given back, at worst with
    /// the nights of their span too.
    pub fn act(&mut self, caller: u32, call: Call) -> Answer
        requires { MayCall self.old caller call }
        ensures answered { IsAnswered self.old self.new caller call result }
        ensures legal { IsLegal self.new.house self.new.history }
    {
        let answer = self.answer(caller, call);
        let _ = &self.log;
        answer
    }

    /// Answers a call by its kind.
    fn answer(&mut self, caller: u32, call: Call) -> Answer
        requires { MayCall self.old caller call }
        ensures { IsAnswered self.old self.new caller call result }
    {
        match call {
            Call::Do { command, quoted } => self.command(caller, command, quoted),
            Call::Publish { board, least } => self.publish(caller, board, least),
            Call::Enrol => self.enrol(caller),
            Call::Leave => self.leave(caller),
        }
    }

    /// Answers a command, unless as many as the limits allow are logged.
    fn command(&mut self, caller: u32, command: Command, quoted: Option<Quoted>) -> Answer
        requires { MayCall self.old caller (Call.Do command quoted) }
        ensures { IsAnswered self.old self.new caller (Call.Do command quoted) result }
    {
        if self.log.commands() == self.house.limits().entries {
            return Answer::HistoryFull;
        }
        match command {
            Command::Book { stay } => self.book(caller, stay),
            Command::Cancel { nth } => self.cancel(caller, nth),
            Command::Reforecast { stay, count } => self.reforecast(caller, stay, count),
            Command::Reprice { stay, rate } => self.reprice(caller, stay, rate),
            Command::Resize { night, rooms } => self.resize(caller, night, rooms),
            Command::Group {
                span,
                rooms,
                amount,
            } => self.group(caller, span, rooms, amount, quoted),
        }
    }

    /// A booking, where the last vector is fresh enough to judge it. Whatever the reply, the stay's forecast falls by
    /// one stay.
    fn book(&mut self, caller: u32, stay: u32) -> Answer
        requires { MayDo self.old caller (Command.Book stay) }
        ensures { IsDone self.old self.new caller (Command.Book stay) None result }
    {
        let position = self.last_board().position();
        let changes = self.changes_up_to(position, self.length());
        if changes >= self.house.limits().stale_after {
            return Answer::Behind { position, changes };
        }
        let reply = self.book_reply(stay);
        let span = self.house.stay(stay).span;
        let units = self.house.limits().unit;
        let value = self.forecasts[stay as usize].saturating_sub(units);
        let act = Act::Do(Command::Book { stay });
        let demand = Change::Demand { stay, value };
        self.forecasts[stay as usize] = value;
        if is_accepted(&reply) {
            self.ledger.take(span, 1);
            self.roll.add(
                caller,
                Booking {
                    stay: stay as u16,
                    fate: Fate::Held,
                },
            );
            let sale = Change::Rooms {
                span,
                up: false,
                units,
            };
            logged(&mut self.log, caller, act, reply, Deltas::Two(sale, demand))
        } else {
            self.roll.add(
                caller,
                Booking {
                    stay: stay as u16,
                    fate: Fate::Refused,
                },
            );
            logged(&mut self.log, caller, act, reply, Deltas::One(demand))
        }
    }

    /// The reply to a booking, by the last vector and the rooms left: bid-price control. The rate has to reach the sum
    /// of the prices of the stay's nights, and a tie is enough; then each night has to have a room.
    fn book_reply(&self, stay: u32) -> Reply
        requires { stay < length self.now.house.stays }
        ensures { result ≡ book_reply self.now.house self.now.history stay }
    {
        let vector = self.log.vectors() - 1;
        let span = self.house.stay(stay).span;
        let sum = self.last_board().price(span);
        let rate = self.rates[stay as usize];
        if rate < sum {
            return Reply::TooLow { vector, sum, rate };
        }
        match self.ledger.first_full(span, 1) {
            Some(night) => Reply::NoRoom { vector, sum, night },
            None => Reply::Accepted { vector, sum },
        }
    }

    /// Gives up a caller's nth booking call, counted from 1, where it is held.
    fn cancel(&mut self, caller: u32, nth: u64) -> Answer
        requires { MayDo self.old caller (Command.Cancel nth) }
        ensures { IsDone self.old self.new caller (Command.Cancel nth) None result }
    {
        let act = Act::Do(Command::Cancel { nth });
        match self.roll.booking(caller, nth) {
            None => logged(&mut self.log, caller, act, Reply::NotBooked, Deltas::None),
            Some(booking) => match booking.fate {
                Fate::Refused => logged(&mut self.log, caller, act, Reply::NotBooked, Deltas::None),
                Fate::GivenUp => {
                    logged(
                        &mut self.log,
                        caller,
                        act,
                        Reply::AlreadyCancelled,
                        Deltas::None,
                    )
                }
                Fate::Held => self.give_up(caller, nth, booking.stay),
            },
        }
    }

    /// Gives the rooms of a booking back, which is held.
    fn give_up(&mut self, caller: u32, nth: u64, stay: u16) -> Answer
        requires may { MayDo self.old caller (Command.Cancel nth) }
        requires held { IsHeld self.old.history caller nth stay }
        ensures { IsDone self.old self.new caller (Command.Cancel nth) None result }
    {
        let span = self.house.stay(u32::from(stay)).span;
        let units = self.house.limits().unit;
        self.ledger.release(span, 1);
        self.roll.set_booking(
            caller,
            nth,
            Booking {
                stay,
                fate: Fate::GivenUp,
            },
        );
        let act = Act::Do(Command::Cancel { nth });
        let rooms = Change::Rooms {
            span,
            up: true,
            units,
        };
        logged(
            &mut self.log,
            caller,
            act,
            Reply::Cancelled,
            Deltas::One(rooms),
        )
    }

    /// Sets the forecast of a stay, in units.
    fn reforecast(&mut self, caller: u32, stay: u32, count: u64) -> Answer
        requires { MayDo self.old caller (Command.Reforecast stay count) }
        ensures { IsDone self.old self.new caller (Command.Reforecast stay count) None result }
    {
        self.forecasts[stay as usize] = count;
        let deltas = Deltas::One(Change::Demand { stay, value: count });
        logged(
            &mut self.log,
            caller,
            Act::Do(Command::Reforecast { stay, count }),
            Reply::Done,
            deltas,
        )
    }

    /// Sets the rate of a stay, in minor units of money.
    fn reprice(&mut self, caller: u32, stay: u32, rate: u64) -> Answer
        requires { MayDo self.old caller (Command.Reprice stay rate) }
        ensures { IsDone self.old self.new caller (Command.Reprice stay rate) None result }
    {
        self.rates[stay as usize] = rate;
        let deltas = Deltas::One(Change::Rate { stay, value: rate });
        logged(
            &mut self.log,
            caller,
            Act::Do(Command::Reprice { stay, rate }),
            Reply::Done,
            deltas,
        )
    }

    /// Sets the rooms of a night, in whole rooms, unless more of them are sold.
    fn resize(&mut self, caller: u32, night: u32, rooms: u64) -> Answer
        requires { MayDo self.old caller (Command.Resize night rooms) }
        ensures { IsDone self.old self.new caller (Command.Resize night rooms) None result }
    {
        let act = Act::Do(Command::Resize { night, rooms });
        let old = self.ledger.rooms(night);
        match self.ledger.resize(night, rooms) {
            Err(below) => {
                let reply = Reply::BelowSold { sold: below.sold };
                logged(&mut self.log, caller, act, reply, Deltas::None)
            }
            Ok(()) => {
                let delta = resize_delta(self.house.limits().unit, night, old, rooms);
                logged(&mut self.log, caller, act, Reply::Done, Deltas::One(delta))
            }
        }
    }

    /// A group of so many rooms on each night of a span, for an amount in minor units of money. Where a night lacks the
    /// rooms, no quote is needed.
    fn group(
        &mut self,
        caller: u32,
        span: Span,
        rooms: u64,
        amount: u64,
        quoted: Option<Quoted>,
    ) -> Answer
        requires may { MayDo self.old caller (Command.Group span rooms amount) }
        requires right { IsQuoteRight self.old.house self.old.history (Command.Group span rooms amount) quoted }
        ensures { IsDone self.old self.new caller (Command.Group span rooms amount) quoted result }
    {
        match self.ledger.first_full(span, rooms) {
            Some(night) => {
                let act = Act::Do(Command::Group {
                    span,
                    rooms,
                    amount,
                });
                logged(
                    &mut self.log,
                    caller,
                    act,
                    Reply::GroupNoRoom { night },
                    Deltas::None,
                )
            }
            None => match quoted {
                None => Answer::Unquoted,
                Some(quote) => self.quoted_group(caller, span, rooms, amount, quote),
            },
        }
    }

    /// A group that there are rooms for, judged by its displacement, unless a change stands after the quote's position.
    /// The displacement is in minor units of money times the unit of the house, and so the amount is multiplied by the
    /// unit.
    fn quoted_group(
        &mut self,
        caller: u32,
        span: Span,
        rooms: u64,
        amount: u64,
        quote: Quoted,
    ) -> Answer
        requires may { MayDo self.old caller (Command.Group span rooms amount) }
        requires rooms { first_short (rooms_left_at self.old.house self.old.history) span rooms ≡ None }
        requires right { IsQuoteFor self.old.house self.old.history (Command.Group span rooms amount) quote }
        ensures { IsDone self.old self.new caller (Command.Group span rooms amount) (Some quote) result }
    {
        let changes = self.changes_after(quote.position);
        if changes >= 1 {
            return Answer::Stale { changes };
        }
        let act = Act::Do(Command::Group {
            span,
            rooms,
            amount,
        });
        let unit = self.house.limits().unit;
        let displacement = quote.displacement;
        let paid = u128::from(unit) * u128::from(amount);
        if paid < displacement {
            logged(
                &mut self.log,
                caller,
                act,
                Reply::GroupTooLow { displacement },
                Deltas::None,
            )
        } else {
            self.ledger.take(span, rooms);
            let sale = Change::Rooms {
                span,
                up: false,
                units: unit * rooms,
            };
            logged(
                &mut self.log,
                caller,
                act,
                Reply::GroupAccepted { displacement },
                Deltas::One(sale),
            )
        }
    }

    /// Publishes a board, where so many changes at least stand from the last vector's position to its own.
    fn publish(&mut self, caller: u32, board: Arc<Board>, least: u64) -> Answer
        requires { MayCall self.old caller (Call.Publish board least) }
        ensures { IsAnswered self.old self.new caller (Call.Publish board least) result }
    {
        let position = self.last_board().position();
        let changes = self.changes_up_to(position, board.position());
        if changes < least {
            return Answer::Superseded { position, changes };
        }
        if self.log.vectors() == self.house.limits().publications {
            return Answer::PublicationsFull;
        }
        let number = self.log.post(caller, board);
        Answer::Logged(Reply::Vector { number })
    }

    /// The first entry of a caller.
    fn enrol(&mut self, caller: u32) -> Answer
        requires { MayCall self.old caller Call.Enrol }
        ensures { IsAnswered self.old self.new caller Call.Enrol result }
    {
        self.roll.set_standing(caller, Standing::Present);
        logged(&mut self.log, caller, Act::Enrol, Reply::Done, Deltas::None)
    }

    /// The last entry of a caller.
    fn leave(&mut self, caller: u32) -> Answer
        requires { MayCall self.old caller Call.Leave }
        ensures { IsAnswered self.old self.new caller Call.Leave result }
    {
        self.roll.set_standing(caller, Standing::Gone);
        logged(&mut self.log, caller, Act::Leave, Reply::Done, Deltas::None)
    }

    /// The house, as it was opened.
    pub fn house(&self) -> &House
        ensures { result.now ≡ self.now.house }
    {
        &self.house
    }

    /// What holds of each book, for who has nothing else: the laws over histories apply to it. It does nothing.
    pub fn facts(&self)
        ensures house { IsHouse self.now.house }
        ensures legal { IsLegal self.now.house self.now.history }
        ensures limits { KeepsLimits self.now.house self.now.history }
    {
        let _ = &self.log;
    }

    /// The board of the last vector.
    pub fn last_board(&self) -> &Board
        ensures last { slice_get (boards self.now.history) (last_number self.now.history) ≡ Some result.now }
        ensures within { result.now.position ≤ length self.now.history }
        ensures position { result.now.position ≡ last_position self.now.history }
        ensures prices { result.now.certificate.prices ≡ last_prices self.now.history }
        ensures nights { length result.now.certificate.prices ≡ length self.now.house.rooms }
    {
        self.log.last()
    }

    /// The changes at the places from one position up to another, and none where that is the earlier one.
    pub fn changes_up_to(&self, from: u64, until: u64) -> u64
        requires { until ≤ length self.now.history }
        ensures { result ≡ changes_between self.now.history from until }
    {
        if until <= from {
            0
        } else {
            self.log.changes_between(from, until)
        }
    }

    /// How many entries there are.
    pub fn length(&self) -> u64
        ensures value { result ≡ length self.now.history }
        ensures legal { IsLegal self.now.house self.now.history }
    {
        self.log.len()
    }

    /// How many of them are commands.
    pub fn commands(&self) -> u64
        ensures { result ≡ commands self.now.history }
    {
        self.log.commands()
    }

    /// How many of them are vectors.
    pub fn vectors(&self) -> u64
        ensures { result ≡ vectors self.now.history }
    {
        self.log.vectors()
    }

    /// How many changes stand at the places from a position on; there is none past the last entry.
    pub fn changes_after(&self, position: u64) -> u64
        ensures { result ≡ changes_after self.now.history position }
    {
        self.changes_up_to(position, self.log.len())
    }

    /// How many of the callers from 1 to a number have left. Numbers that no caller can have are passed over.
    pub fn left(&self, sessions: u32) -> u32
        ensures { result ≡ left_of self.now.history sessions }
    {
        let most = sessions.min(MOST_CALLERS);
        let mut left = 0;
        for caller in 1..most + 1 {
            if self.roll.is_gone(caller) {
                left += 1;
            }
        }
        left
    }

    /// Whether a caller is the opener, or has enrolled and not left.
    pub fn may_act(&self, caller: u32) -> bool
        ensures { result ≡ may_act self.now.history caller }
    {
        let roll = &self.roll;
        if caller == 0 {
            return true;
        }
        if caller > MOST_CALLERS {
            return false;
        }
        roll.is_present(caller)
    }

    /// Whether a caller is one of 1 to the greatest below `CALLERS`, and has no entry yet.
    pub fn may_enrol(&self, caller: u32) -> bool
        ensures { result ≡ may_enrol self.now.history caller }
    {
        let roll = &self.roll;
        if caller == 0 {
            return false;
        }
        if caller > MOST_CALLERS {
            return false;
        }
        roll.is_new(caller)
    }

    /// Whether an act may be a caller's next entry: an Enrol, a Leave, or what is done between the two.
    pub fn may_log(&self, caller: u32, act: Act) -> bool
        ensures { result ≡ may_log self.now.history caller act }
    {
        match act {
            Act::Enrol => self.may_enrol(caller),
            Act::Leave => caller != 0 && self.may_act(caller),
            Act::Do(_) | Act::Publish { .. } => self.may_act(caller),
        }
    }

    /// Whether a caller has given up its nth booking, counted from 1 and with those that were refused.
    pub fn is_cancelled(&self, caller: u32, nth: u64) -> bool
        ensures { result ≡ has_given_up self.now.history caller nth }
    {
        let roll = &self.roll;
        if caller > MOST_CALLERS {
            return false;
        }
        if nth == 0 {
            return false;
        }
        was_given_up(roll.booking(caller, nth))
    }

    /// The entry at a place; there is none past the last one.
    pub fn entry(&self, place: u64) -> Option<Entry>
        ensures { result ≡ option_map (λ (x : Line). x.entry) (slice_get self.now.history place) }
    {
        self.log.entry(place)
    }

    /// The certificate of the entry at a place; only a Publish has one.
    pub fn certificate(&self, place: u64) -> Option<&Certificate>
        ensures { option_map (λ c. c.now) result ≡ certificate_at self.now.history place }
    {
        let entry = self.log.entry(place);
        match published_number(entry) {
            Some(number) => certificate_of(self.log.board(number)),
            None => None,
        }
    }

    /// The board of a vector by its number; there is none past the last one.
    pub fn vector(&self, number: u64) -> Option<&Arc<Board>>
        ensures { option_map (λ b. arc_value b.now) result ≡ slice_get (boards self.now.history) number }
    {
        self.log.board(number)
    }

    /// The rooms of a night, in whole rooms.
    pub fn rooms(&self, night: u32) -> u64
        requires { night < length self.now.house.rooms }
        ensures { result ≡ rooms_at self.now.house self.now.history night }
    {
        self.ledger.rooms(night)
    }

    /// The sold rooms of a night, in whole rooms.
    pub fn sold(&self, night: u32) -> u64
        requires { night < length self.now.house.rooms }
        ensures { result ≡ sold_at self.now.house self.now.history night }
    {
        self.ledger.sold(night)
    }

    /// The forecast of a stay, in units.
    pub fn forecast(&self, stay: u32) -> u64
        requires { stay < length self.now.house.stays }
        ensures { result ≡ forecast_of self.now.house self.now.history stay }
    {
        self.forecasts[stay as usize]
    }

    /// The rate of a stay, in minor units of money.
    pub fn rate(&self, stay: u32) -> u64
        requires { stay < length self.now.house.stays }
        ensures { result ≡ rate_of self.now.house self.now.history stay }
    {
        self.rates[stay as usize]
    }

    /// Fills in the changes of the entries from a position on, whole entries only and as many as fit, and answers the
    /// position reached. Applied in turn to the instance at `from` they keep to its limits and give the instance there.
    pub fn changes(&self, from: u64, into: &mut Vec<Change>) -> u64
        requires within { from ≤ length self.now.history }
        requires empty { into.old.items ≡ [] }
        requires room { 2 ≤ vec_capacity into.old }
        ensures reached { (from ≤ result) × (result ≤ length self.now.history) }
        ensures moves { from < length self.now.history → from < result }
        ensures items { into.new.items ≡ deltas_between self.now.house self.now.history from result }
        ensures leads { Leads (instance_at self.now.house self.now.history from) into.new.items
            (instance_at self.now.house self.now.history result) }
        ensures full { result < length self.now.history →
            vec_capacity into.old < length (deltas_between self.now.house self.now.history from (result + 1)) }
        ensures capacity { vec_capacity into.new ≡ vec_capacity into.old }
    {
        self.changes_until(from, self.log.len(), into)
    }

    /// The same, of the entries before another position.
    pub fn changes_until(&self, from: u64, until: u64, into: &mut Vec<Change>) -> u64
        requires ordered { from ≤ until }
        requires within { until ≤ length self.now.history }
        requires empty { into.old.items ≡ [] }
        requires room { 2 ≤ vec_capacity into.old }
        ensures reached { (from ≤ result) × (result ≤ until) }
        ensures moves { from < until → from < result }
        ensures items { into.new.items ≡ deltas_between self.now.house self.now.history from result }
        ensures leads { Leads (instance_at self.now.house self.now.history from) into.new.items
            (instance_at self.now.house self.now.history result) }
        ensures full { result < until →
            vec_capacity into.old < length (deltas_between self.now.house self.now.history from (result + 1)) }
        ensures capacity { vec_capacity into.new ≡ vec_capacity into.old }
    {
        self.log.fill(from, until, into)
    }
}

/// Whether a booking was accepted.
fn is_accepted(reply: &Reply) -> bool
    ensures { result ≡ is_accepted reply.now }
{
    matches!(reply, Reply::Accepted { .. })
}

/// Whether there is a booking, and it was given up.
fn was_given_up(booking: Option<Booking>) -> bool
    ensures { result ≡ was_given_up booking }
{
    match booking {
        Some(booking) => matches!(booking.fate, Fate::GivenUp),
        None => false,
    }
}

/// The number of the vector that an entry publishes.
fn published_number(entry: Option<Entry>) -> Option<u64>
    ensures { result ≡ option_and_then published_number entry }
{
    match entry {
        Some(
            Entry {
                act: Act::Publish { .. },
                reply: Reply::Vector { number },
                ..
            },
        ) => Some(number),
        _ => None,
    }
}

/// The certificate of a board, if there is one.
fn certificate_of(board: Option<&Arc<Board>>) -> Option<&Certificate>
    ensures { option_map (λ c. c.now) result ≡
        option_map (λ (b : Posted). b.certificate) (option_map (λ b. arc_value b.now) board.entry) }
{
    match board {
        Some(board) => Some(board.certificate()),
        None => None,
    }
}

/// Logs an entry that is no Publish.
fn logged(log: &mut Log, caller: u32, act: Act, reply: Reply, deltas: Deltas) -> Answer
    requires plain { published_position act ≡ None }
    requires room { length log.old.lines < log.old.line_room }
    ensures answer { result ≡ Answer.Logged reply }
    ensures log { log.new ≡ record {
      lines = log.old.lines ++ plain_line caller act reply ∷ [];
      deltas =
          log.old.deltas ++ delta_list deltas ∷ [];
      line_room = log.old.line_room;
      board_room = log.old.board_room;
    } }
{
    log.push(Entry { caller, act, reply }, deltas);
    Answer::Logged(reply)
}

/// How the rooms of a night move from an old number to a new one: up or down, by so many units.
fn resize_delta(unit: u64, night: u32, old: u64, new: u64) -> Change
    requires unit { unit ≤ HUNDREDTHS }
    requires old { old ≤ MOST_ROOMS }
    requires new { new ≤ MOST_ROOMS }
    requires night { night < MOST_NIGHTS }
    ensures { result ≡ resize_delta unit night old new }
{
    let span = Span {
        from: night,
        to: night + 1,
    };
    let up = old <= new;
    let rooms = if up { new - old } else { old - new };
    Change::Rooms {
        span,
        up,
        units: unit * rooms,
    }
}

/// The rooms and sold rooms of the house's nights.
fn opening_ledger(alloc: Global, house: &House) -> Result<Ledger, Memory>
    ensures { IfOk result (λ l. (l.rooms ≡ house.now.rooms) × (l.sold ≡ house.now.sold)) }
{
    let mut rooms = Vec::new(alloc);
    let mut sold = Vec::new(alloc);
    for night in 0..house.nights() {
        rooms.push(house.rooms(night))?;
        sold.push(house.sold(night))?;
    }
    Ledger::new(alloc, &rooms, &sold)
}

/// The forecast of each of the house's stays.
fn opening_forecasts(alloc: Global, house: &House) -> Result<Vec<u64>, Memory>
    ensures { IfOk result (λ v. v.items ≡ map (λ (s : Stay). s.forecast) house.now.stays) }
{
    let mut forecasts = Vec::new(alloc);
    for stay in 0..house.stays() {
        forecasts.push(house.stay(stay).forecast)?;
    }
    Ok(forecasts)
}

/// The rate of each of the house's stays.
fn opening_rates(alloc: Global, house: &House) -> Result<Vec<u64>, Memory>
    ensures { IfOk result (λ v. v.items ≡ map (λ (s : Stay). s.rate) house.now.stays) }
{
    let mut rates = Vec::new(alloc);
    for stay in 0..house.stays() {
        rates.push(house.stay(stay).rate)?;
    }
    Ok(rates)
}
