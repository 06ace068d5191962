//! Two displays beside a desk that books, as a user of the library would write it.
ghost use Rattle.std.specs.Prelude.{◌≡◌, length, IfOk, IsTrue};
ghost use Rattle.std.specs.Arc.{arc_value};
ghost use Rattle.bp_types.specs.Claim.{IsCertificateOf};
ghost use Rattle.bp_types.specs.declared.command.Command.TheVariants.{Book};
ghost use Rattle.bp_types.specs.House.{opening};
ghost use Rattle.bp_core.specs.declared.line.Act.TheVariants.{Do};
ghost use Rattle.bp_core.specs.Legal.{is_in_range};

use bp_board::Board;
use bp_core::{Act, is_in_range};
use bp_desk::{Desk, Pass};
use bp_fixtures::opening_board;
use bp_show::{Follow, Look, Screen, View};
use bp_types::{Certificate, Command, House, Instance, Span};
use std::alloc::Global;
use std::sync::{Arc, Wait};
use std::test::Fail;
use std::thread::{Threads, join};

/// The stay that is booked.
const TRADE_FAIR: u32 = 0;

/// The nights whose price the displays show.
const WEEKEND: Span = Span { from: 1, to: 3 };

/// The price that a display shows; None where the hotel has no such nights.
fn weekend(view: &mut View) -> Option<Look> {
    if WEEKEND.to > view.nights() {
        return None;
    }
    Some(view.look(WEEKEND))
}

/// Opens the desk of a house, and enrols a session.
fn open<R: Wait>(
    rt: &R,
    alloc: Global,
    house: House,
    board: Arc<Board>,
) -> Result<(Desk, Pass), Fail>
    requires position { (arc_value board).position ≡ 0 }
    requires certificate { IsCertificateOf (opening house) (arc_value board).certificate }
    ensures desk { IfOk result (λ r. r.1.desk ≡ r.0) }
    ensures house { IfOk result (λ r. r.1.house ≡ house) }
{
    let (desk, mut opener) = Desk::new(alloc, house, board)?;
    let session = desk.enrol(rt, alloc, &mut opener)?;
    Ok((desk, session))
}

/// A session books, publishes the prices that were computed for the history since, and has them shown.
fn book_and_show<R: Wait>(
    rt: &R,
    alloc: Global,
    desk: &Desk,
    session: &mut Pass,
    start: &Instance,
    later: Certificate,
    screen: &mut Screen<'_, R>,
) -> Result<Follow, Fail>
    requires desk { session.old.desk ≡ desk.now }
    requires start { start.now ≡ opening session.old.house }
    requires stay { IsTrue (is_in_range session.old.house (Do (Book TRADE_FAIR))) }
    requires nights { length session.old.house.rooms ≡ screen.old.nights }
{
    desk.book(rt, session, TRADE_FAIR)?;
    let position = desk.lag(rt, session).length;
    desk.submit(rt, alloc, session, start, position, later)?;
    Ok(screen.follow(session)?)
}

/// The session's call, while a screen in the lobby and a page of the website look.
fn show_while_they_look<R: Threads + Wait + Sync>(
    rt: &R,
    alloc: Global,
    desk: &Desk,
    session: &mut Pass,
    start: &Instance,
    later: Certificate,
    screen: &mut Screen<'_, R>,
    lobby: &mut View,
    website: &mut View,
) -> Result<Follow, Fail>
    requires desk { session.old.desk ≡ desk.now }
    requires start { start.now ≡ opening session.old.house }
    requires stay { IsTrue (is_in_range session.old.house (Do (Book TRADE_FAIR))) }
    requires nights { length session.old.house.rooms ≡ screen.old.nights }
{
    // Nobody waits for a look: the one gives vector 0 or vector 1, and the other too.
    let (shown, _looks) = join(
        rt,
        || book_and_show(rt, alloc, desk, session, start, later, screen),
        || join(rt, || weekend(lobby), || weekend(website)),
    );
    shown
}

/// An evening at the desk, and what both displays show at its end.
#[tactic(auto, using(crate::proofs::Lobbies::opened_nights))]
pub(crate) fn evening<R: Threads + Wait + Sync>(
    rt: &R,
    alloc: Global,
    house: House,
    opening: Certificate,
    later: Certificate,
) -> Result<(Option<Look>, Option<Look>), Fail> {
    if !is_in_range(&house, Act::Do(Command::Book { stay: TRADE_FAIR })) {
        return Err("the hotel has no such stay".into());
    }
    let start = house.instance(alloc)?;
    let board = opening_board(alloc, &start, opening)?;

    // The screen shows vector 0, and each display has a view of its own, which may go to another thread.
    let (mut screen, mut views) = Screen::new(rt, alloc, 0, &board, 2)?;
    let (Some(mut lobby), Some(mut website)) = (views.pop(), views.pop()) else {
        return Err("no views".into());
    };
    let (desk, mut session) = open(rt, alloc, house, board)?;

    show_while_they_look(
        rt,
        alloc,
        &desk,
        &mut session,
        &start,
        later,
        &mut screen,
        &mut lobby,
        &mut website,
    )?;

    // Now that the screen has followed, both show what it shows.
    Ok((weekend(&mut lobby), weekend(&mut website)))
}
