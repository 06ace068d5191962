ghost use Rattle.std.specs.Prelude.{◌≡◌, ◌<◌, ◌≤◌, [], ◌∷◌, ◌++◌, length, All, IfOk, MatchResult};
ghost use Rattle.bp_types.specs.declared.limits.TheConstants.{MOST_VIEWS};
ghost use Rattle.bp_show.specs.Shown.{IsPrefix, EndsIn, Rises, number_shown};

use crate::face::{Face, Showing};
use crate::follow::{FaceWriter, commit, hand_out, prepare, show};
use crate::gifts::Gifts;
use crate::naming::{Names, Tells};
use crate::order::{Chronicle, Gift, Note, Place, Settle, Take};
use crate::sums::Sums;
use crate::view::View;
use atomic_table::Table;
use core::mem::replace_with;
use left_right::writer::Writer;
use std::alloc::{AllocError, Global};
use std::marker::Model;
use std::snapshot::Snapshot;
use std::sync::{Arc, Wait};

/// What views look at, with the list of vectors that it has shown. It may end only where nobody reads it, so who ends
/// it has to be able to wait.
///
/// Contracts see the list.
pub(crate) struct Stage {
    writer: FaceWriter,
    chronicle: Arc<Chronicle>,
    place: Place,
    /// The last try to show a vector.
    stamp: u64,
}

impl Model for Stage {
    ghost use Rattle.std.specs.Prelude.{◌≡◌, ◌≤◌, true, [], drop, length};
    ghost use Rattle.std.specs.Arc.{arc_value};
    ghost use Rattle.bp_show.specs.Naming.{named};
    ghost use Rattle.bp_show.specs.Shown.{EndsIn, Rises};
    ghost use Rattle.bp_show.specs.Screens.{Display, name_at};

    ghost Value = { Display };

    ghost view = { λ s. record { screen = s.place.table_id; nights = length s.writer.desk.shown.value.shown.prices; seen = s.place.me.0.seen } };

    ghost invariant = { λ s. EndsIn s.place.me.0.seen s.writer.desk.shown.value.shown
        × Rises s.place.me.0.seen
        × (1 ≤ length s.writer.desk.shown.value.shown.prices)
        × (drop s.writer.behind s.writer.log.items ≡ [])
        × (s.writer.desk.shown.value.gift.table_id ≡ s.place.table_id)
        × (name_at s.writer.desk.place ≡ named s.place.table_id)
        × (s.place.table_id ≡ (arc_value s.chronicle).shared.table_id)
        × (s.place.table_id.words ≡ 1)
        × (s.place.me.1 ≡ [])
        × (s.place.me.0.leads ≡ true)
        × (s.place.me.0.stamp ≡ s.stamp) };
}

impl Stage {
    /// A stage that shows this vector, with room for so many views. Nobody reads it yet, so it waits for nobody.
    pub(crate) fn new<R: Wait>(
        rt: &R,
        alloc: Global,
        vector: Sums,
        views: u32,
    ) -> Result<Stage, AllocError>
        requires views { (1 ≤ views) × (views ≤ MOST_VIEWS) }
        requires nights { 1 ≤ length vector.prices }
        ensures shown { IfOk result (λ s. s.seen ≡ vector ∷ []) }
        ensures nights { IfOk result (λ s. s.nights ≡ length vector.prices) }
    {
        let about = Snapshot::of(&vector);
        let (table, mut place): (Chronicle, Place) = Table::of_words(alloc, &[1], &about)?;
        let chronicle = Arc::new(alloc, table)?;
        let like = chronicle.shared.split_seat::<Gift>(&mut place);
        let first = Face {
            shown: vector.copy(),
            stamp: 1,
            gift: Gifts::new(&like),
        };
        let second = Face {
            shown: vector,
            stamp: 1,
            gift: Gifts::new(&like),
        };
        let writer: FaceWriter = Writer::new(alloc, first, second, views as usize)?;
        let (writer, named) = writer.publish_as::<Names, R>(rt);
        match named {
            Ok(()) => Ok(Stage {
                writer,
                chronicle,
                place,
                stamp: 1,
            }),
            Err(error) => {
                writer.take(rt);
                Err(error)
            }
        }
    }

    /// Ends it, once no view reads it.
    pub(crate) fn end<R: Wait>(self, rt: &R) {
        let Stage {
            writer,
            chronicle: _chronicle,
            place: _place,
            stamp: _,
        } = self;
        writer.take(rt);
    }

    /// The vector that is shown.
    pub(crate) fn shown(&self) -> &Sums
        ensures last { EndsIn self.now.seen result.now }
        ensures rises { Rises self.now.seen }
        ensures nights { self.now.nights ≡ length result.now.prices }
        ensures some { 1 ≤ self.now.nights }
    {
        let _place = &self.place;
        &self.writer.published().shown
    }

    /// Shows a vector with a greater number.
    pub(crate) fn show<R: Wait>(&mut self, rt: &R, vector: Sums) -> Result<(), AllocError>
        requires nights { length vector.prices ≡ self.old.nights }
        requires newer { number_shown self.old.seen < vector.number }
        ensures screen { self.new.screen ≡ self.old.screen }
        ensures nights { self.new.nights ≡ self.old.nights }
        ensures shown { MatchResult result
            (λ _. self.new.seen ≡ self.old.seen ++ vector ∷ [])
            (λ _. self.new.seen ≡ self.old.seen) }
    {
        let Some(stamp) = self.stamp.checked_add(1) else {
            return Err(AllocError);
        };
        let like = prepare(&self.chronicle, &mut self.place, &vector);
        self.stamp = stamp;
        let showing = Showing {
            vector: vector.copy(),
            stamp,
            like,
        };
        replace_with(&mut self.writer, (rt, showing), show)?;
        commit(&self.chronicle, &mut self.place, stamp, &vector);
        hand_out(&self.chronicle, &mut self.place, self.writer.published());
        Ok(())
    }

    /// So many views, which have seen all that was shown.
    pub(crate) fn views(&mut self, alloc: Global, views: u32) -> Result<Vec<View>, AllocError>
        requires { views ≤ MOST_VIEWS }
        ensures stage { self.new ≡ self.old }
        ensures views { IfOk result (λ made. (length made.items ≡ views) × All (λ v. v ≡ self.old) made.items) }
    {
        let mut made = Vec::new(alloc);
        for index in 0..views {
            made.push(self.view(index as usize)?)?;
        }
        Ok(made)
    }

    /// Another view, which has seen all that was shown.
    fn view(&mut self, index: usize) -> Result<View, AllocError>
        requires { index < MOST_VIEWS }
        ensures stage { self.new ≡ self.old }
        ensures view { IfOk result (λ v. v ≡ self.old) }
    {
        let face = self.writer.published();
        let last = face.shown.copy();
        let known = face.stamp;
        let chronicle = Arc::try_clone(&self.chronicle)?;
        let mut reader = self.writer.factory().reader()?;
        reader.learn::<Tells>(self.writer.tell::<Tells>());
        let place = self.chronicle.shared.split_seat::<Note>(&mut self.place);
        Ok(View {
            reader,
            chronicle,
            place,
            index,
            last,
            known,
        })
    }

    /// Shows a view all that was shown. It neither waits nor takes memory.
    pub(crate) fn meet(&mut self, view: &mut View)
        requires { view.old.screen ≡ self.old.screen }
        ensures stage { self.new ≡ self.old }
        ensures met { view.new ≡ self.old }
        ensures begins { IsPrefix view.old.seen view.new.seen }
    {
        let note = self.chronicle.shared.split_seat::<Note>(&mut view.place);
        self.chronicle
            .shared
            .join_seat::<Note>(&mut self.place, note);
        self.chronicle.shared.load::<Settle>(&mut self.place, 0);
        let note = self.chronicle.shared.split_seat::<Note>(&mut self.place);
        self.chronicle
            .shared
            .join_seat::<Take>(&mut view.place, note);
        let face = self.writer.published();
        view.last = face.shown.copy();
        view.known = face.stamp;
    }
}
