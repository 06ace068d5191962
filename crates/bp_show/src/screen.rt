//! The screen: it follows a pass of the shared desk, and shows the newest vector that the pass has seen.
ghost use Rattle.std.specs.Prelude.{◌≡◌, ◌≤◌, [], ◌∷◌, length, All, IfOk, MatchResult};
ghost use Rattle.bp_types.specs.declared.limits.TheConstants.{MOST_VIEWS};
ghost use Rattle.bp_show.specs.Answers.{Followed};
ghost use Rattle.bp_show.specs.Histories.{AreVectorsIn};
ghost use Rattle.bp_show.specs.Shown.{IsPrefix, Rises};
ghost use Rattle.bp_show.specs.Vectors.{vector_on, newest_of};

use crate::stage::Stage;
use crate::sums::Sums;
use crate::view::View;
use bp_board::Board;
use bp_desk::Pass;
use bp_types::{Memory, Span};
use std::alloc::Global;
use std::marker::Model;
use std::sync::Wait;

/// The answer of a screen that follows.
#[derive(Clone, Copy, Debug, PartialEq, Eq)]
pub enum Follow {
    /// The vector of this number is shown, which is newer than all before.
    Shown { number: u64 },
    /// Nothing is newer than this one, the last one shown.
    Same { number: u64 },
}

/// A screen, which shows vectors of rising numbers to its views. Where it is dropped, it waits until none of them reads
/// what it shows; each goes on with the last vector that it has seen.
///
/// Contracts see which screen it is, for how many nights its vectors have prices, and the list of vectors that it has
/// shown.
pub struct Screen<'a, R: Wait> {
    stage: Stage,
    rt: &'a R,
}

impl<'a, R: Wait> Model for Screen<'a, R> {
    ghost use Rattle.bp_show.specs.Screens.{Display};

    ghost Value = { Display };

    ghost view = { λ s. s.stage };
}

impl<'a, R: Wait> Screen<'a, R> {
    /// A screen that shows the vector on a board under a number, and its views, 1 to `MOST_VIEWS`. All room is taken
    /// here, and it waits for nobody. The one error is `Memory`.
    pub fn new(
        rt: &'a R,
        alloc: Global,
        number: u64,
        board: &Board,
        views: u32,
    ) -> Result<(Screen<'a, R>, Vec<View>), Memory>
        requires { (1 ≤ views) × (views ≤ MOST_VIEWS) }
        ensures shown { IfOk result (λ r. r.0.seen ≡ vector_on number board.now ∷ []) }
        ensures nights { IfOk result (λ r. r.0.nights ≡ length board.now.certificate.prices) }
        ensures views { IfOk result (λ r. (length r.1.items ≡ views) × All (λ v. v ≡ r.0) r.1.items) }
    {
        let _position = board.position();
        let stage = Stage::new(rt, alloc, Sums::of_board(number, board), views)?;
        let mut screen = Screen { stage, rt };
        let made = screen.stage.views(alloc, views)?;
        Ok((screen, made))
    }

    /// Tells what holds of every screen. It does nothing.
    pub fn facts(&self)
        ensures rises { Rises self.now.seen }
    {
        let _shown = self.stage.shown();
    }

    /// Shows the newest vector that the pass has seen, where its number is above that of the last one shown. It waits
    /// until no view reads what was shown before. Its time grows with the nights, whose prices it reads. After `Memory`
    /// what was shown is as before.
    pub fn follow(&mut self, pass: &Pass) -> Result<Follow, Memory>
        requires { length pass.now.house.rooms ≡ self.old.nights }
        ensures screen { self.new.screen ≡ self.old.screen }
        ensures nights { self.new.nights ≡ self.old.nights }
        ensures shown { MatchResult result
            (λ f. Followed self.old.seen (newest_of pass.now.seen) self.new.seen f)
            (λ _. self.new.seen ≡ self.old.seen) }
        ensures kept { AreVectorsIn pass.now.seen self.old.seen → AreVectorsIn pass.now.seen self.new.seen }
    {
        pass.facts();
        let shown = self.stage.shown();
        let last = shown.number();
        let nights = shown.nights();
        let newest = pass.quote(Span {
            from: 0,
            to: nights,
        });
        if newest.number <= last {
            return Ok(Follow::Same { number: last });
        }
        self.stage.show(self.rt, Sums::of_pass(pass, nights))?;
        Ok(Follow::Shown {
            number: newest.number,
        })
    }

    /// Shows a view of this screen all that was shown. It neither waits nor takes memory.
    pub fn meet(&mut self, view: &mut View)
        requires { view.old.screen ≡ self.old.screen }
        ensures screen { self.new ≡ self.old }
        ensures met { view.new ≡ self.old }
        ensures begins { IsPrefix view.old.seen view.new.seen }
    {
        self.stage.meet(view);
    }
}

impl<R: Wait> Drop for Screen<'_, R> {
    fn drop(self) {
        let Self { stage, rt } = self;
        stage.end(rt);
    }
}
