ghost use Rattle.std.specs.Prelude.{◌≡◌, ◌<◌, false, [], ◌∷◌, IfSome};
ghost use Rattle.std.specs.Arc.{arc_value};
ghost use Rattle.left_right.specs.Sides.{view};
ghost use Rattle.bp_types.specs.declared.limits.TheConstants.{MOST_VIEWS};
ghost use Rattle.bp_types.specs.Spans.{IsSpanWithin};
ghost use Rattle.bp_show.specs.Answers.{Answers};
ghost use Rattle.bp_show.specs.Naming.{named};
ghost use Rattle.bp_show.specs.Shown.{IsPrefix, Rises};

use crate::face::Face;
use crate::name::Name;
use crate::naming::{Sees, Shows};
use crate::order::{Adopt, Chronicle, Gift, Place};
use crate::sums::Sums;
use bp_types::Span;
use core::mem::replace_with;
use left_right::reader::Reader;
use std::marker::Model;
use std::sync::Arc;

/// What the nights of a span cost in a vector.
#[derive(Clone, Copy, Debug, PartialEq, Eq)]
pub struct Look {
    /// The vector's number, counted from 0.
    pub number: u64,
    /// The position that the vector is for.
    pub position: u64,
    /// The sum of the prices, in minor units of money.
    pub sum: u64,
}

pub(crate) type FaceReader = Reader<Face, Option<Name>, Shows>;

/// A view of a screen. It keeps the last vector that it has seen, and may move to another thread.
///
/// Contracts see the list of vectors that it has seen.
#[derive(Drop)]
pub struct View {
    pub(crate) reader: FaceReader,
    pub(crate) chronicle: Arc<Chronicle>,
    pub(crate) place: Place,
    /// Which of the perches is its own.
    pub(crate) index: usize,
    /// The last vector that it has seen.
    pub(crate) last: Sums,
    /// The try that showed it. Where the chronicle's word is another one, a newer vector is shown.
    pub(crate) known: u64,
}

impl Model for View {
    ghost use Rattle.std.specs.Prelude.{◌≡◌, ◌<◌, false, [], length};
    ghost use Rattle.std.specs.Arc.{arc_value};
    ghost use Rattle.bp_types.specs.declared.limits.TheConstants.{MOST_VIEWS};
    ghost use Rattle.bp_show.specs.Naming.{named};
    ghost use Rattle.bp_show.specs.Shown.{EndsIn, Rises};
    ghost use Rattle.bp_show.specs.Screens.{Display, name_at};

    ghost Value = { Display };

    ghost view = { λ s. record { screen = s.place.table_id; nights = length s.last.prices; seen = s.place.me.0.seen } };

    ghost invariant = { λ s. EndsIn s.place.me.0.seen s.last
        × Rises s.place.me.0.seen
        × (name_at s.reader.place ≡ named s.place.table_id)
        × (s.place.table_id ≡ (arc_value s.chronicle).shared.table_id)
        × (s.place.table_id.words ≡ 1)
        × (s.place.me.1 ≡ [])
        × (s.place.me.0.leads ≡ false)
        × (s.index < MOST_VIEWS) };
}

/// A vector that is shown, the try that showed it, and a seat that knows of the try.
#[derive(Drop)]
struct Found {
    vector: Sums,
    stamp: u64,
    seat: Place,
}

/// Takes the vector that is shown, where a seat that knows of its try rests on this perch.
fn take_newest(reader: FaceReader, with: (&Arc<Chronicle>, usize)) -> (FaceReader, Option<Found>)
    requires table { view reader.place ≡ named (arc_value with.0.now).shared.table_id }
    requires index { with.1 < MOST_VIEWS }
    requires words { (arc_value with.0.now).shared.table_id.words ≡ 1 }
    ensures reader { view result.0.place ≡ view reader.place }
    ensures found { IfSome result.1 (λ n. (n.seat.table_id ≡ (arc_value with.entry.0.now).shared.table_id) ×
        (n.seat.me.1 ≡ []) × (n.seat.me.0.leads ≡ false) × (n.seat.me.0.claim ≡ n.vector ∷ []) ×
        (n.seat.me.0.stamp ≡ n.stamp)) }
{
    let (chronicle, index) = with;
    match reader.enter_as::<Sees>() {
        Ok(reading) => {
            let face = reading.get();
            let vector = face.shown.copy();
            let stamp = face.stamp;
            let Some(mut rested) = face.gift.take(index) else {
                return (reading.leave(), None);
            };
            let seat = chronicle.shared.split_seat::<Gift>(&mut rested);
            face.gift.give(index, rested);
            let found = Found {
                vector,
                stamp,
                seat,
            };
            (reading.leave(), Some(found))
        }
        Err(reader) => (reader, None),
    }
}

impl View {
    /// Tells what holds of every view. It does nothing.
    pub fn facts(&self)
        ensures rises { Rises self.now.seen }
    {
        let _ = &self.last;
    }

    /// How many nights have a price.
    pub fn nights(&self) -> u32
        ensures { result ≡ self.now.nights }
    {
        self.last.nights()
    }

    /// The price of a span by the newest vector that is shown, or by the last one that the view has seen where the
    /// screen is gone. It neither waits nor takes memory.
    pub fn look(&mut self, span: Span) -> Look
        requires { IsSpanWithin self.old.nights span }
        ensures screen { self.new.screen ≡ self.old.screen }
        ensures nights { self.new.nights ≡ self.old.nights }
        ensures begins { IsPrefix self.old.seen self.new.seen }
        ensures answers { Answers self.new.seen span result }
    {
        if self.is_behind() {
            self.adopt();
        }
        Look {
            number: self.last.number(),
            position: self.last.position(),
            sum: self.last.price(span),
        }
    }

    /// Whether a newer vector is shown than the last one that the view has seen. One word is read, so that a look at a
    /// screen that has not changed writes nothing that another view reads.
    fn is_behind(&self) -> bool {
        self.chronicle.shared.peek(0) != self.known
    }

    /// Sees what is shown, where its try is the last one in the list.
    fn adopt(&mut self)
        ensures screen { self.new.screen ≡ self.old.screen }
        ensures nights { self.new.nights ≡ self.old.nights }
        ensures begins { IsPrefix self.old.seen self.new.seen }
    {
        let found = replace_with(&mut self.reader, (&self.chronicle, self.index), take_newest);
        let Some(found) = found else {
            return;
        };
        let Found {
            vector,
            stamp,
            seat,
        } = found;
        self.chronicle
            .shared
            .join_seat::<Gift>(&mut self.place, seat);
        let showed = self.chronicle.shared.load::<Adopt>(&mut self.place, 0);
        if showed == stamp {
            self.last = vector;
            self.known = stamp;
        }
    }
}
