//! A shared desk with one session, and a screen that follows it.
ghost use Rattle.std.specs.Prelude.{◌≡◌, ◌≤◌, length, All, IfOk};
ghost use Rattle.bp_types.specs.declared.limits.TheConstants.{MOST_VIEWS};

use bp_core::{Act, Answer, is_in_range};
use bp_desk::{Desk, Pass, SubmitError};
use bp_fixtures::{Claimed, Numbers, certificate, house, opening_board};
use bp_show::{Follow, Screen, View};
use bp_types::{Command, House, Instance, Limits, Memory};
use std::alloc::Global;
use std::marker::Model;
use std::sync::Wait;
use std::test::Fail;

/// Room for the vectors of all looks.
pub(crate) const LIMITS: Limits = Limits {
    stale_after: 10,
    entries: 2000,
    publications: 1000,
    unit: 1,
};

/// A desk, the pass of a session there, and a screen that follows the pass. Contracts see the screen.
#[derive(Drop)]
pub(crate) struct Lobby<'a, R: Wait> {
    desk: Desk,
    pass: Pass,
    house: House,
    start: Instance,
    screen: Screen<'a, R>,
}

impl<'a, R: Wait> Model for Lobby<'a, R> {
    ghost use Rattle.bp_show.specs.Screens.{Display};
    ghost use Rattle.bp_show_tests.specs.Lobbies.{IsLobby};

    ghost Value = { Display };

    ghost view = { λ l. l.screen };

    ghost invariant = { λ l. IsLobby l.desk l.house l.start l.pass l.screen };
}

impl<'a, R: Wait> Lobby<'a, R> {
    /// Opens a hotel's desk, with a screen and so many views.
    #[tactic(auto, using(crate::proofs::Lobbies::opened_nights))]
    pub(crate) fn open(
        rt: &'a R,
        alloc: Global,
        numbers: Numbers<'_>,
        views: u32,
    ) -> Result<(Lobby<'a, R>, Vec<View>), Fail>
        requires { (1 ≤ views) × (views ≤ MOST_VIEWS) }
        ensures { IfOk result (λ r. (length r.1.items ≡ views) × All (λ v. v ≡ r.0) r.1.items) }
    {
        let of_desk = house(alloc, numbers.rooms, numbers.sold, numbers.stays, LIMITS)?;
        let house = house(alloc, numbers.rooms, numbers.sold, numbers.stays, LIMITS)?;
        let start = house.instance(alloc)?;
        let board = opening_board(alloc, &start, certificate(alloc, numbers.opening)?)?;
        let (screen, views) = Screen::new(rt, alloc, 0, &board, views)?;
        let (desk, mut opener) = Desk::new(alloc, of_desk, board)?;
        let Ok(pass) = desk.enrol(rt, alloc, &mut opener) else {
            return Err("nobody was enrolled".into());
        };
        let lobby = Lobby {
            desk,
            pass,
            house,
            start,
            screen,
        };
        Ok((lobby, views))
    }

    /// What the desk answers to a command; None where its numbers are out of range.
    #[tactic(auto, using(crate::proofs::Lobbies::by_call))]
    pub(crate) fn ask(&mut self, rt: &R, command: Command) -> Option<Answer>
        ensures { self.new ≡ self.old }
    {
        if !is_in_range(&self.house, Act::Do(command)) {
            return None;
        }
        Some(self.desk.command(rt, &mut self.pass, command, None))
    }

    /// What the desk answers to a certificate for the history as it is.
    #[tactic(auto, using(crate::proofs::Lobbies::by_submission, crate::proofs::Lobbies::by_reading))]
    pub(crate) fn submit(
        &mut self,
        rt: &R,
        alloc: Global,
        claimed: Claimed<'_>,
    ) -> Result<Result<u64, SubmitError>, Fail>
        ensures { self.new ≡ self.old }
    {
        let certificate = certificate(alloc, claimed)?;
        let position = self.desk.lag(rt, &mut self.pass).length;
        Ok(
            self.desk.submit(
                rt,
                alloc,
                &mut self.pass,
                &self.start,
                position,
                certificate,
            ),
        )
    }

    /// The screen follows the pass.
    pub(crate) fn follow(&mut self) -> Result<Follow, Memory>
        ensures { self.new.screen ≡ self.old.screen }
    {
        self.screen.follow(&self.pass)
    }

    /// A view sees all that was shown.
    pub(crate) fn meet(&mut self, view: &mut View)
        requires { view.old.screen ≡ self.old.screen }
        ensures { self.new ≡ self.old }
    {
        self.screen.meet(view);
    }

    /// Whether each of so many vectors in turn, whose price is its number, was published and shown.
    pub(crate) fn follow_all(&mut self, rt: &R, alloc: Global, vectors: u64) -> Result<bool, Fail> {
        for number in 1..=vectors {
            self.ask(
                rt,
                Command::Reprice {
                    stay: 0,
                    rate: number,
                },
            );
            let published = self.submit(rt, alloc, (number as u128, &[1], &[number]))?;
            if published != Ok(number) || self.follow() != Ok(Follow::Shown { number }) {
                return Ok(false);
            }
        }
        Ok(true)
    }
}
