//! The calls at a shared desk by their names: commands, and the publication of a board.
ghost use Rattle.std.specs.Prelude.{◌≡◌, None, IsTrue};
ghost use Rattle.bp_types.specs.declared.command.Command.TheVariants.{Book, Cancel, Reforecast, Reprice, Resize, Group};
ghost use Rattle.bp_core.specs.declared.call.Call.TheVariants.{Do, Publish};
ghost use Rattle.bp_core.specs.declared.line.Act.TheVariants.{Do as DoAct};
ghost use Rattle.bp_core.specs.Acting.{IsCallRight};
ghost use Rattle.bp_core.specs.Legal.{is_in_range};
ghost use Rattle.bp_desk.specs.Calling.{IsCalled, AddsCall};
ghost use Rattle.bp_desk.specs.Typed.{
  book_answer,
  cancel_answer,
  plain_answer,
  resize_answer,
  group_answer,
  is_group_answer,
  publish_answer,
};

use crate::desk::Desk;
use crate::pass::Pass;
use crate::replies::{
    BookReply, BookStop, CancelReply, GroupReply, GroupStop, HistoryFull, PublishStop, ResizeReply,
};
use bp_board::Board;
use bp_core::{Answer, Reply};
use bp_types::{Command, Quoted, Span};
use std::sync::{Arc, Wait};

/// The calls by their names, each with the answers that it can get. Each waits for a turn of its own, and takes no
/// memory. An error says why a call made no entry; a reply makes one.
impl Desk {
    /// Books a room for a stay, judged by bid-price control at this call's turn: by the last vector and the rooms left.
    pub fn book<R: Wait>(&self, rt: &R, pass: &mut Pass, stay: u32) -> Result<BookReply, BookStop>
        requires desk { pass.old.desk ≡ self.now }
        requires range { IsTrue (is_in_range pass.old.house (DoAct (Book stay))) }
        ensures called { IsCalled pass.old pass.new (Do (Book stay) None) (book_answer result) }
        ensures calls { AddsCall pass.old pass.new (Do (Book stay) None) (book_answer result) }
    {
        match self.command(rt, pass, Command::Book { stay }, None) {
            Answer::Logged(Reply::Accepted { vector, sum }) => {
                Ok(BookReply::Accepted { vector, sum })
            }
            Answer::Logged(Reply::TooLow { vector, sum, rate }) => {
                Ok(BookReply::TooLow { vector, sum, rate })
            }
            Answer::Logged(Reply::NoRoom { vector, sum, night }) => {
                Ok(BookReply::NoRoom { vector, sum, night })
            }
            Answer::HistoryFull => Err(BookStop::HistoryFull),
            Answer::Behind { position, changes } => Err(BookStop::Behind { position, changes }),
            _ => unreachable!(),
        }
    }

    /// Gives up the caller's own nth booking, counted from 1 over its booking calls, accepted or not.
    pub fn cancel<R: Wait>(
        &self,
        rt: &R,
        pass: &mut Pass,
        nth: u64,
    ) -> Result<CancelReply, HistoryFull>
        requires desk { pass.old.desk ≡ self.now }
        requires range { IsTrue (is_in_range pass.old.house (DoAct (Cancel nth))) }
        ensures called { IsCalled pass.old pass.new (Do (Cancel nth) None) (cancel_answer result) }
        ensures calls { AddsCall pass.old pass.new (Do (Cancel nth) None) (cancel_answer result) }
    {
        match self.command(rt, pass, Command::Cancel { nth }, None) {
            Answer::Logged(Reply::Cancelled) => Ok(CancelReply::Cancelled),
            Answer::Logged(Reply::NotBooked) => Ok(CancelReply::NotBooked),
            Answer::Logged(Reply::AlreadyCancelled) => Ok(CancelReply::AlreadyCancelled),
            Answer::HistoryFull => Err(HistoryFull),
            _ => unreachable!(),
        }
    }

    /// Sets the forecast of a stay, in units.
    pub fn reforecast<R: Wait>(
        &self,
        rt: &R,
        pass: &mut Pass,
        stay: u32,
        count: u64,
    ) -> Result<(), HistoryFull>
        requires desk { pass.old.desk ≡ self.now }
        requires range { IsTrue (is_in_range pass.old.house (DoAct (Reforecast stay count))) }
        ensures called { IsCalled pass.old pass.new (Do (Reforecast stay count) None) (plain_answer result) }
        ensures calls { AddsCall pass.old pass.new (Do (Reforecast stay count) None) (plain_answer result) }
    {
        match self.command(rt, pass, Command::Reforecast { stay, count }, None) {
            Answer::Logged(Reply::Done) => Ok(()),
            Answer::HistoryFull => Err(HistoryFull),
            _ => unreachable!(),
        }
    }

    /// Sets the rate of a stay, in minor units of money.
    pub fn reprice<R: Wait>(
        &self,
        rt: &R,
        pass: &mut Pass,
        stay: u32,
        rate: u64,
    ) -> Result<(), HistoryFull>
        requires desk { pass.old.desk ≡ self.now }
        requires range { IsTrue (is_in_range pass.old.house (DoAct (Reprice stay rate))) }
        ensures called { IsCalled pass.old pass.new (Do (Reprice stay rate) None) (plain_answer result) }
        ensures calls { AddsCall pass.old pass.new (Do (Reprice stay rate) None) (plain_answer result) }
    {
        match self.command(rt, pass, Command::Reprice { stay, rate }, None) {
            Answer::Logged(Reply::Done) => Ok(()),
            Answer::HistoryFull => Err(HistoryFull),
            _ => unreachable!(),
        }
    }

    /// Sets the rooms of a night, in whole rooms, unless more of them are sold.
    pub fn resize<R: Wait>(
        &self,
        rt: &R,
        pass: &mut Pass,
        night: u32,
        rooms: u64,
    ) -> Result<ResizeReply, HistoryFull>
        requires desk { pass.old.desk ≡ self.now }
        requires range { IsTrue (is_in_range pass.old.house (DoAct (Resize night rooms))) }
        ensures called { IsCalled pass.old pass.new (Do (Resize night rooms) None) (resize_answer result) }
        ensures calls { AddsCall pass.old pass.new (Do (Resize night rooms) None) (resize_answer result) }
    {
        match self.command(rt, pass, Command::Resize { night, rooms }, None) {
            Answer::Logged(Reply::Done) => Ok(ResizeReply::Done),
            Answer::Logged(Reply::BelowSold { sold }) => Ok(ResizeReply::BelowSold { sold }),
            Answer::HistoryFull => Err(HistoryFull),
            _ => unreachable!(),
        }
    }

    /// Books so many rooms on each night of a span for one amount, in minor units of money. A group that there are
    /// rooms for needs a quote, which has to be right at its position.
    pub fn group<R: Wait>(
        &self,
        rt: &R,
        pass: &mut Pass,
        span: Span,
        rooms: u64,
        amount: u64,
        quoted: Option<Quoted>,
    ) -> Result<GroupReply, GroupStop>
        requires desk { pass.old.desk ≡ self.now }
        requires range { IsTrue (is_in_range pass.old.house (DoAct (Group span rooms amount))) }
        requires right { IsCallRight pass.old.house pass.old.seen (Do (Group span rooms amount) quoted) }
        ensures called { IsCalled pass.old pass.new (Do (Group span rooms amount) quoted) (group_answer result) }
        ensures calls { AddsCall pass.old pass.new (Do (Group span rooms amount) quoted) (group_answer result) }
    {
        let command = Command::Group {
            span,
            rooms,
            amount,
        };
        group_of(self.command(rt, pass, command, quoted))
    }

    /// Publishes a board, and answers the number of its vector. From the last vector's position to the board's own at
    /// least so many changes must stand.
    pub fn publish<R: Wait>(
        &self,
        rt: &R,
        pass: &mut Pass,
        board: Arc<Board>,
        least: u64,
    ) -> Result<u64, PublishStop>
        requires desk { pass.old.desk ≡ self.now }
        requires right { IsCallRight pass.old.house pass.old.seen (Publish board least) }
        ensures called { IsCalled pass.old pass.new (Publish board least) (publish_answer result) }
        ensures calls { AddsCall pass.old pass.new (Publish board least) (publish_answer result) }
    {
        match self.post(rt, pass, board, least) {
            Answer::Logged(Reply::Vector { number }) => Ok(number),
            Answer::Superseded { position, changes } => {
                Err(PublishStop::Superseded { position, changes })
            }
            Answer::PublicationsFull => Err(PublishStop::PublicationsFull),
            _ => unreachable!(),
        }
    }
}

/// What a group was answered.
fn group_of(answer: Answer) -> Result<GroupReply, GroupStop>
    requires { IsTrue (is_group_answer answer) }
    ensures { group_answer result ≡ answer }
{
    match answer {
        Answer::Logged(Reply::GroupAccepted { displacement }) => {
            Ok(GroupReply::Accepted { displacement })
        }
        Answer::Logged(Reply::GroupTooLow { displacement }) => {
            Ok(GroupReply::TooLow { displacement })
        }
        Answer::Logged(Reply::GroupNoRoom { night }) => Ok(GroupReply::NoRoom { night }),
        Answer::HistoryFull => Err(GroupStop::HistoryFull),
        Answer::Unquoted => Err(GroupStop::Unquoted),
        Answer::Stale { changes } => Err(GroupStop::Stale { changes }),
        _ => unreachable!(),
    }
}
