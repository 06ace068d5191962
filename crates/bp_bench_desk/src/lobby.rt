//! A shared desk with one session, and a screen that follows it.
ghost use Rattle.std.specs.Prelude.{◌≡◌, ◌≤◌, length, All, IfOk};
ghost use Rattle.bp_types.specs.declared.limits.TheConstants.{MOST_VIEWS};

use crate::hotel::{Hotel, house, opening_board};
use bp_core::{Act, Answer, is_in_range};
use bp_desk::{Desk, Pass, SubmitError};
use bp_show::{Follow, Screen, View};
use bp_types::{Certificate, Command, House, Instance, Memory};
use std::alloc::Global;
use std::marker::Model;
use std::sync::Wait;
use std::test::Fail;

/// A desk, the pass of a session there, and a screen that follows the pass. Contracts see the screen.
#[derive(Drop)]
pub(crate) struct Lobby<'a, R: Wait> {
    desk: Desk,
    pass: Pass,
    house: House,
    start: Instance,
    screen: Screen<'a, R>,
}

impl<'a, R: Wait> Model for Lobby<'a, R> {
    ghost use Rattle.bp_show.specs.Screens.{Display};
    ghost use Rattle.bp_bench_desk.specs.Lobbies.{IsLobby};

    ghost Value = { Display };

    ghost view = { λ l. l.screen };

    ghost invariant = { λ l. IsLobby l.desk l.house l.start l.pass l.screen };
}

impl<'a, R: Wait> Lobby<'a, R> {
    /// Opens a hotel's desk, with a screen and so many views.
    #[tactic(auto, using(crate::proofs::Lobbies::opened_nights))]
    pub(crate) fn open(
        rt: &'a R,
        alloc: Global,
        hotel: &Hotel,
        views: u32,
    ) -> Result<(Lobby<'a, R>, Vec<View>), Fail>
        requires { (1 ≤ views) × (views ≤ MOST_VIEWS) }
    {
        let of_desk = house(alloc, hotel)?;
        let house = house(alloc, hotel)?;
        let start = house.instance(alloc)?;
        let board = opening_board(alloc, &start, hotel)?;
        let (screen, views) = Screen::new(rt, alloc, 0, &board, views)?;
        let (desk, mut opener) = Desk::new(alloc, of_desk, board)?;
        let Ok(pass) = desk.enrol(rt, alloc, &mut opener) else {
            return Err("nobody was enrolled".into());
        };
        let lobby = Lobby {
            desk,
            pass,
            house,
            start,
            screen,
        };
        Ok((lobby, views))
    }

    /// What the desk answers to a command; None where its numbers are out of range.
    #[tactic(auto, using(crate::proofs::Lobbies::by_call))]
    pub(crate) fn ask(&mut self, rt: &R, command: Command) -> Option<Answer> {
        if !is_in_range(&self.house, Act::Do(command)) {
            return None;
        }
        Some(self.desk.command(rt, &mut self.pass, command, None))
    }

    /// What the desk answers to a certificate for the history as it is.
    #[tactic(auto, using(crate::proofs::Lobbies::by_submission, crate::proofs::Lobbies::by_reading))]
    pub(crate) fn submit(
        &mut self,
        rt: &R,
        alloc: Global,
        certificate: Certificate,
    ) -> Result<u64, SubmitError> {
        let position = self.desk.lag(rt, &mut self.pass).length;
        self.desk.submit(
            rt,
            alloc,
            &mut self.pass,
            &self.start,
            position,
            certificate,
        )
    }

    /// The screen follows the pass.
    pub(crate) fn follow(&mut self) -> Result<Follow, Memory> {
        self.screen.follow(&self.pass)
    }
}
