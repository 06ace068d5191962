//! A book with what a test asks of it.
ghost use Rattle.std.specs.Prelude.{◌≡◌, ◌<◌, false, length, map, IfOk, IsTrue};
ghost use Rattle.std.specs.List.{range_with_len};
ghost use Rattle.std.specs.Arc.{arc_value};
ghost use Rattle.bp_types.specs.Changes.{changed, HasUnits};
ghost use Rattle.bp_types.specs.Spans.{IsSpanWithin};
ghost use Rattle.bp_types.specs.Claim.{IsCertificateOf};
ghost use Rattle.bp_core.specs.Acting.{MayCall};
ghost use Rattle.bp_core.specs.Instance.{units_left_at, stay_now, instance_of};
ghost use Rattle.bp_core.specs.Calls.{Continues};
ghost use Rattle.bp_core_tests.specs.Desks.{IsBoardFor, IsQuoteOf};

use bp_board::Board;
use bp_cert::{Verdict, check};
use bp_core::{Act, Answer, Book, Call, is_in_range};
use bp_types::{Certificate, Change, Command, House, Instance, Limits, Quoted, Span, Stay, law};
use std::alloc::Global;
use std::marker::Model;
use std::process::Abort;
use std::sync::Arc;
use std::test::Fail;

/// Value, sell numbers and prices of a certificate.
pub(crate) type Claimed<'a> = (u128, &'a [u64], &'a [u64]);

/// A caller, what it does, and what is answered.
pub(crate) type Row = (u32, Act, Answer);

/// A book with what a test asks of it. Contracts see what they see of a book.
#[derive(Drop)]
pub(crate) struct Desk {
    book: Book,
}

impl Model for Desk {
    ghost use Rattle.bp_core.specs.Acting.{Diary};

    ghost Value = { Diary };

    ghost view = { λ d. d.book };
}

/// The house of these rooms, sold rooms, stays and limits.
fn house(
    alloc: Global,
    rooms: &[u64],
    sold: &[u64],
    stays: &[Stay],
    limits: Limits,
) -> Result<House, Fail>
    ensures { IfOk result (λ h. h ≡ record { rooms = rooms.now; sold = sold.now; stays = stays.now; limits = limits }) }
{
    let rooms = Vec::from_slice(alloc, rooms)?;
    let sold = Vec::from_slice(alloc, sold)?;
    let stays = Vec::from_slice(alloc, stays)?;
    match House::new(rooms, sold, stays, limits) {
        Ok(house) => Ok(house),
        Err(error) => Err(Fail::new(error)),
    }
}

/// The certificate of these numbers, where it is optimal.
fn optimal(alloc: Global, instance: &Instance, claimed: Claimed<'_>) -> Result<Certificate, Fail>
    ensures { IfOk result (λ c. IsCertificateOf instance.now c) }
{
    let certificate = Certificate {
        value: claimed.0,
        sell: Vec::from_slice(alloc, claimed.1)?,
        prices: Vec::from_slice(alloc, claimed.2)?,
    };
    match check(instance, &certificate) {
        Verdict::Optimal { .. } => Ok(certificate),
        verdict => Err(Fail::new(format_args!("{verdict:?}"))),
    }
}

/// The board of these numbers for a position, where they are an optimal certificate.
fn board_of(
    alloc: Global,
    instance: &Instance,
    position: u64,
    claimed: Claimed<'_>,
) -> Result<Arc<Board>, Fail>
    ensures { IfOk result (λ b. ((arc_value b).position ≡ position) ×
        IsCertificateOf instance.now (arc_value b).certificate) }
{
    let certificate = optimal(alloc, instance, claimed)?;
    let _nights = instance.nights();
    let board = Board::new(alloc, position, certificate)?;
    Ok(Arc::new(alloc, board)?)
}

/// Whether each night of a span has so many units.
fn has_units(instance: &Instance, span: Span, units: u64) -> bool
    requires { IsSpanWithin (length instance.now.rooms) span }
    ensures { IsTrue result → HasUnits instance.now span units }
{
    for night in span.from..span.to {
        if instance.rooms(night) < units {
            return false;
        }
    }
    true
}

/// The instance with so many units fewer on each night of a span.
fn without(alloc: Global, instance: &Instance, span: Span, units: u64) -> Result<Instance, Fail>
    requires span { IsSpanWithin (length instance.now.rooms) span }
    requires units { HasUnits instance.now span units }
    ensures { IfOk result (λ p. p ≡ changed instance.now (Change.Rooms span false units)) }
{
    let mut fewer = instance.copy(alloc)?;
    fewer.apply(Change::Rooms {
        span,
        up: false,
        units,
    });
    Ok(fewer)
}

impl Desk {
    /// The book of a house that opens with these numbers, where they are an optimal certificate.
    pub(crate) fn open(
        alloc: Global,
        rooms: &[u64],
        sold: &[u64],
        stays: &[Stay],
        limits: Limits,
        claimed: Claimed<'_>,
    ) -> Result<Desk, Fail> {
        let house = house(alloc, rooms, sold, stays, limits)?;
        let board = board_of(alloc, &house.instance(alloc)?, 0, claimed)?;
        let book = Book::new(alloc, house, board)?;
        Ok(Desk { book })
    }

    /// The book.
    pub(crate) fn book(&self) -> &Book
        ensures { result.now ≡ self.now }
    {
        &self.book
    }

    /// What the book answers to a call.
    fn act(&mut self, caller: u32, call: Call) -> Answer
        requires { MayCall self.old caller call }
        ensures { Continues self.old self.new }
    {
        self.book.act(caller, call)
    }

    /// What the book answers to an act that goes with nothing else; None where the caller may not make it.
    pub(crate) fn ask(&mut self, caller: u32, act: Act) -> Option<Answer>
        ensures { Continues self.old self.new }
    {
        if !self.book.may_log(caller, act) || !is_in_range(self.book.house(), act) {
            return None;
        }
        match act {
            Act::Do(command) => Some(self.act(
                caller,
                Call::Do {
                    command,
                    quoted: None,
                },
            )),
            Act::Enrol => Some(self.act(caller, Call::Enrol)),
            Act::Leave => Some(self.act(caller, Call::Leave)),
            Act::Publish { .. } => None,
        }
    }

    /// Makes the calls of a table, and wants its answers.
    pub(crate) fn run(&mut self, rt: &impl Abort, rows: &[Row])
        ensures { Continues self.old self.new }
    {
        for row in rows {
            let got = self.ask(row.0, row.1);
            assert_eq!(rt; got, Some(row.2), "at {} {:?}", row.0, row.1);
        }
    }

    /// The units left on a night.
    fn units_left(&self, night: u32) -> Result<u64, Fail>
        requires { night < length self.now.house.rooms }
        ensures { IfOk result (λ u. u ≡ units_left_at self.now.house self.now.history night) }
    {
        let left = self.book.rooms(night).saturating_sub(self.book.sold(night));
        match self.book.house().limits().unit.checked_mul(left) {
            Some(units) => Ok(units),
            None => Err(Fail::new("too many units")),
        }
    }

    /// The units left on each night.
    fn all_units_left(&self, alloc: Global) -> Result<Vec<u64>, Fail>
        ensures { IfOk result (λ v. v.items ≡
            map (units_left_at self.now.house self.now.history) (range_with_len 0 (length self.now.house.rooms))) }
    {
        let mut left = Vec::new(alloc);
        for night in 0..self.book.house().nights() {
            left.push(self.units_left(night)?)?;
        }
        Ok(left)
    }

    /// A stay with its rate and its forecast as they are now.
    fn stay_now(&self, stay: u32) -> Stay
        requires { stay < length self.now.house.stays }
        ensures { result ≡ stay_now self.now.house self.now.history stay }
    {
        Stay {
            span: self.book.house().stay(stay).span,
            rate: self.book.rate(stay),
            forecast: self.book.forecast(stay),
        }
    }

    /// Each stay with its rate and its forecast as they are now.
    fn stays_now(&self, alloc: Global) -> Result<Vec<Stay>, Fail>
        ensures { IfOk result (λ v. v.items ≡
            map (stay_now self.now.house self.now.history) (range_with_len 0 (length self.now.house.stays))) }
    {
        let mut stays = Vec::new(alloc);
        for stay in 0..self.book.house().stays() {
            stays.push(self.stay_now(stay))?;
        }
        Ok(stays)
    }

    /// The linear program after the history so far.
    fn instance(&self, alloc: Global) -> Result<Instance, Fail>
        ensures { IfOk result (λ p. p ≡ instance_of self.now.house self.now.history) }
    {
        let rooms = self.all_units_left(alloc)?;
        let stays = self.stays_now(alloc)?;
        match Instance::new(rooms, stays) {
            Ok(instance) => Ok(instance),
            Err(error) => Err(Fail::new(error)),
        }
    }

    /// The board of these numbers for the history so far, where they are an optimal certificate.
    pub(crate) fn board(&self, alloc: Global, claimed: Claimed<'_>) -> Result<Arc<Board>, Fail>
        ensures { IfOk result (λ b. IsBoardFor self.now (arc_value b)) }
    {
        let instance = self.instance(alloc)?;
        board_of(alloc, &instance, self.book.length(), claimed)
    }

    /// What the book answers to a publication.
    pub(crate) fn post(&mut self, caller: u32, board: Arc<Board>, least: u64) -> Option<Answer>
        requires { IsBoardFor self.old (arc_value board) }
        ensures { Continues self.old self.new }
    {
        if least == 0 || !self.book.may_act(caller) {
            return None;
        }
        Some(self.act(caller, Call::Publish { board, least }))
    }

    /// The board of these numbers, published.
    pub(crate) fn publish(
        &mut self,
        alloc: Global,
        caller: u32,
        claimed: Claimed<'_>,
        least: u64,
    ) -> Result<Option<Answer>, Fail>
        ensures { IfOk result (λ _. Continues self.old self.new) }
    {
        let board = self.board(alloc, claimed)?;
        Ok(self.post(caller, board, least))
    }

    /// A quote for rooms on a span: what the optimum loses by them, by an optimal certificate of each.
    pub(crate) fn quote(
        &self,
        alloc: Global,
        span: Span,
        rooms: u64,
        before: Claimed<'_>,
        after: Claimed<'_>,
    ) -> Result<Quoted, Fail>
        ensures { IfOk result (λ q. IsQuoteOf self.now span rooms q) }
    {
        let instance = self.instance(alloc)?;
        let Some(units) = self.book.house().limits().unit.checked_mul(rooms) else {
            return Err(Fail::new("too many units"));
        };
        if span.from >= span.to || span.to > instance.nights() {
            return Err(Fail::new("not a span"));
        }
        if !has_units(&instance, span, units) {
            return Err(Fail::new("no rooms"));
        }
        let first = optimal(alloc, &instance, before)?;
        let fewer = without(alloc, &instance, span, units)?;
        let last = optimal(alloc, &fewer, after)?;
        law::certificates_tell_displacement();
        match first.value.checked_sub(last.value) {
            Some(displacement) => Ok(Quoted {
                position: self.book.length(),
                displacement,
            }),
            None => Err(Fail::new("worth more without the rooms")),
        }
    }

    /// What the book answers to a group with a quote.
    pub(crate) fn group(
        &mut self,
        caller: u32,
        span: Span,
        rooms: u64,
        amount: u64,
        quote: Quoted,
    ) -> Option<Answer>
        requires { IsQuoteOf self.old span rooms quote }
        ensures { Continues self.old self.new }
    {
        let command = Command::Group {
            span,
            rooms,
            amount,
        };
        if !self.book.may_act(caller) || !is_in_range(self.book.house(), Act::Do(command)) {
            return None;
        }
        let quoted = Some(quote);
        Some(self.act(caller, Call::Do { command, quoted }))
    }
}
