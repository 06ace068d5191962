//! A desk of one thread: the book of a busy hotel, and the boards that it is given.
ghost use Rattle.std.specs.Prelude.{◌≡◌, ◌<◌, length, map, IfOk};
ghost use Rattle.std.specs.List.{range_with_len};
ghost use Rattle.std.specs.Arc.{arc_value};
ghost use Rattle.bp_types.specs.Claim.{IsCertificateOf};
ghost use Rattle.bp_core.specs.Acting.{MayCall};
ghost use Rattle.bp_core.specs.Instance.{units_left_at, stay_now, instance_of};
ghost use Rattle.bp_bench.specs.Desks.{IsBoardFor};

use crate::hotel::{Hotel, LIMITS, sales};
use bp_board::Board;
use bp_cert::{Verdict, check};
use bp_core::{Act, Answer, Book, Call, is_in_range};
use bp_types::{Certificate, House, Instance, Stay};
use std::alloc::Global;
use std::marker::Model;
use std::sync::Arc;
use std::test::Fail;

/// A book that is asked only what it may be asked, and is given only right prices. Contracts see what they see of a
/// book.
#[derive(Drop)]
pub(crate) struct Desk {
    book: Book,
}

impl Model for Desk {
    ghost use Rattle.bp_core.specs.Acting.{Diary};

    ghost Value = { Diary };

    ghost view = { λ d. d.book };
}

/// The house of the hotel.
fn house(alloc: Global, hotel: &Hotel) -> Result<House, Fail> {
    let rooms = Vec::from_slice(alloc, &hotel.rooms)?;
    let sold = Vec::from_slice(alloc, &hotel.sold)?;
    let stays = Vec::from_slice(alloc, &hotel.stays)?;
    match House::new(rooms, sold, stays, LIMITS) {
        Ok(house) => Ok(house),
        Err(error) => Err(Fail::new(error)),
    }
}

/// The certificate of the hotel's prices, where it is optimal.
fn optimal(alloc: Global, instance: &Instance, prices: &[u64]) -> Result<Certificate, Fail>
    ensures { IfOk result (λ c. IsCertificateOf instance.now c) }
{
    let (value, sell) = sales(alloc, instance)?;
    let certificate = Certificate {
        value,
        sell,
        prices: Vec::from_slice(alloc, prices)?,
    };
    match check(instance, &certificate) {
        Verdict::Optimal { .. } => Ok(certificate),
        verdict => Err(Fail::new(format_args!("{verdict:?}"))),
    }
}

/// The board of the hotel's prices for a position, where they are right for the instance there.
fn board_of(
    alloc: Global,
    instance: &Instance,
    position: u64,
    prices: &[u64],
) -> Result<Arc<Board>, Fail>
    ensures { IfOk result (λ b. ((arc_value b).position ≡ position) ×
        IsCertificateOf instance.now (arc_value b).certificate) }
{
    let certificate = optimal(alloc, instance, prices)?;
    let _nights = instance.nights();
    let board = Board::new(alloc, position, certificate)?;
    Ok(Arc::new(alloc, board)?)
}

impl Desk {
    /// The book of a hotel as it opens.
    pub(crate) fn open(alloc: Global, hotel: &Hotel) -> Result<Desk, Fail> {
        let house = house(alloc, hotel)?;
        let board = board_of(alloc, &house.instance(alloc)?, 0, &hotel.prices)?;
        let book = Book::new(alloc, house, board)?;
        Ok(Desk { book })
    }

    /// What the book answers to a call.
    fn act(&mut self, caller: u32, call: Call) -> Answer
        requires { MayCall self.old caller call }
    {
        self.book.act(caller, call)
    }

    /// What the book answers to an act that goes with nothing else; None where the caller may not make it.
    pub(crate) fn ask(&mut self, caller: u32, act: Act) -> Option<Answer> {
        if !self.book.may_log(caller, act) || !is_in_range(self.book.house(), act) {
            return None;
        }
        match act {
            Act::Do(command) => Some(self.act(
                caller,
                Call::Do {
                    command,
                    quoted: None,
                },
            )),
            Act::Enrol => Some(self.act(caller, Call::Enrol)),
            Act::Leave => Some(self.act(caller, Call::Leave)),
            Act::Publish { .. } => None,
        }
    }

    /// The units left on a night.
    fn units_left(&self, night: u32) -> Result<u64, Fail>
        requires { night < length self.now.house.rooms }
        ensures { IfOk result (λ u. u ≡ units_left_at self.now.house self.now.history night) }
    {
        let left = self.book.rooms(night).saturating_sub(self.book.sold(night));
        match self.book.house().limits().unit.checked_mul(left) {
            Some(units) => Ok(units),
            None => Err(Fail::new("too many units")),
        }
    }

    /// The units left on each night.
    fn all_units_left(&self, alloc: Global) -> Result<Vec<u64>, Fail>
        ensures { IfOk result (λ v. v.items ≡
            map (units_left_at self.now.house self.now.history) (range_with_len 0 (length self.now.house.rooms))) }
    {
        let mut left = Vec::new(alloc);
        for night in 0..self.book.house().nights() {
            left.push(self.units_left(night)?)?;
        }
        Ok(left)
    }

    /// A stay with its rate and its forecast as they are now.
    fn stay_now(&self, stay: u32) -> Stay
        requires { stay < length self.now.house.stays }
        ensures { result ≡ stay_now self.now.house self.now.history stay }
    {
        Stay {
            span: self.book.house().stay(stay).span,
            rate: self.book.rate(stay),
            forecast: self.book.forecast(stay),
        }
    }

    /// Each stay with its rate and its forecast as they are now.
    fn stays_now(&self, alloc: Global) -> Result<Vec<Stay>, Fail>
        ensures { IfOk result (λ v. v.items ≡
            map (stay_now self.now.house self.now.history) (range_with_len 0 (length self.now.house.stays))) }
    {
        let mut stays = Vec::new(alloc);
        for stay in 0..self.book.house().stays() {
            stays.push(self.stay_now(stay))?;
        }
        Ok(stays)
    }

    /// The linear program after the history so far.
    fn instance(&self, alloc: Global) -> Result<Instance, Fail>
        ensures { IfOk result (λ p. p ≡ instance_of self.now.house self.now.history) }
    {
        let rooms = self.all_units_left(alloc)?;
        let stays = self.stays_now(alloc)?;
        match Instance::new(rooms, stays) {
            Ok(instance) => Ok(instance),
            Err(error) => Err(Fail::new(error)),
        }
    }

    /// The board of the hotel's prices for the history so far.
    pub(crate) fn board(&self, alloc: Global, prices: &[u64]) -> Result<Arc<Board>, Fail>
        ensures { IfOk result (λ b. IsBoardFor self.now (arc_value b)) }
    {
        let instance = self.instance(alloc)?;
        board_of(alloc, &instance, self.book.length(), prices)
    }

    /// What the book answers to a board that caller 0 publishes; None where it may not.
    pub(crate) fn post(&mut self, board: Arc<Board>) -> Option<Answer>
        requires { IsBoardFor self.old (arc_value board) }
    {
        if !self.book.may_act(0) {
            return None;
        }
        Some(self.act(0, Call::Publish { board, least: 1 }))
    }
}
