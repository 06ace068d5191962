//! The steps of a screen that shows one vector more: a try, what readers take, the list, and seats for the views.
ghost use Rattle.std.specs.Prelude.{◌≡◌, ◌+◌, ◌<◌, true, false, [], ◌∷◌, ◌++◌, MatchResult, drop};
ghost use Rattle.std.specs.Arc.{arc_value};
ghost use Rattle.left_right.specs.Sides.{view};
ghost use Rattle.bp_show.specs.Naming.{named};
ghost use Rattle.bp_show.specs.Order.{gift};
ghost use Rattle.bp_show.specs.Shown.{Rises};

use crate::face::{Face, Showing};
use crate::name::Name;
use crate::naming::{Names, Shows};
use crate::order::{Chronicle, Commit, Gift, Place, Prepare};
use crate::sums::Sums;
use bp_types::limits::MOST_VIEWS;
use left_right::writer::Writer;
use std::alloc::AllocError;
use std::sync::{Arc, Wait};

/// The writer of what readers take.
pub(crate) type FaceWriter = Writer<Face, Showing, Option<Name>, Shows>;

/// Notes a try to show the vector, and gives a seat that knows of it.
pub(crate) fn prepare(chronicle: &Arc<Chronicle>, place: &mut Place, vector: &Sums) -> Place
    requires table { (place.old.table_id ≡ (arc_value chronicle.now).shared.table_id) × (place.old.table_id.words ≡ 1) }
    requires leads { place.old.me.0.leads ≡ true }
    ensures table { place.new.table_id ≡ place.old.table_id }
    ensures place { place.new.me ≡
        (record place.old.me.0 { stamp = place.old.me.0.stamp + 1; claim = vector.now ∷ [] }, place.old.me.1) }
    ensures like { (result.table_id ≡ place.old.table_id) × (result.me ≡ (gift place.new.me.0, [])) }
{
    chronicle
        .shared
        .compare_exchange_with::<Prepare>(place, 0, 0, 0, vector);
    chronicle.shared.split_seat::<Gift>(place)
}

/// Shows readers one vector more, by left-right. It waits until none reads what they took before. After an error all is
/// as it was.
pub(crate) fn show<R: Wait>(
    writer: FaceWriter,
    with: (&R, Showing),
) -> (FaceWriter, Result<(), AllocError>)
    requires idle { drop writer.behind writer.log.items ≡ [] }
    requires table { with.1.like.table_id ≡ writer.desk.shown.value.gift.table_id }
    requires knows { (with.1.like.me.0.claim ≡ with.1.vector ∷ []) × (with.1.like.me.0.stamp ≡ with.1.stamp) ×
        (with.1.like.me.0.leads ≡ false) }
    ensures idle { drop result.0.behind result.0.log.items ≡ [] }
    ensures writer { MatchResult result.1
        (λ _. (result.0.desk.shown.value ≡
        record writer.desk.shown.value {
          shown = with.entry.1.vector;
          stamp = with.entry.1.stamp;
          gift =
              record { table_id = with.entry.1.like.table_id; view = with.entry.1.like.me.0 };
        })
        × (view result.0.desk.place ≡ named result.0.desk.shown.value.gift.table_id))
        (λ _. (view result.0.desk.place ≡ view writer.desk.place) ×
        (result.0.desk.shown.value ≡ writer.desk.shown.value)) }
{
    let (rt, showing) = with;
    let mut writer = writer;
    match writer.append(showing) {
        Ok(()) => writer.publish_as::<Names, R>(rt),
        Err(_) => (writer, Err(AllocError)),
    }
}

/// Puts the vector of the last try into the list.
pub(crate) fn commit(chronicle: &Arc<Chronicle>, place: &mut Place, stamp: u64, vector: &Sums)
    requires table { (place.old.table_id ≡ (arc_value chronicle.now).shared.table_id) × (place.old.table_id.words ≡ 1) }
    requires leads { place.old.me.0.leads ≡ true }
    requires stamp { stamp ≡ place.old.me.0.stamp }
    requires claim { place.old.me.0.claim ≡ vector.now ∷ [] }
    requires rises { Rises (place.old.me.0.seen ++ vector.now ∷ []) }
    ensures table { place.new.table_id ≡ place.old.table_id }
    ensures place { place.new.me ≡
        (record place.old.me.0 { seen = place.old.me.0.seen ++ vector.now ∷ [] }, place.old.me.1) }
{
    let _vector = vector;
    chronicle.shared.store::<Commit>(place, 0, stamp);
}

/// Gives each view a seat that knows of the try, where its perch is empty.
pub(crate) fn hand_out(chronicle: &Arc<Chronicle>, place: &mut Place, face: &Face)
    requires table { (place.old.table_id ≡ (arc_value chronicle.now).shared.table_id) × (place.old.table_id.words ≡ 1) }
    requires gift { (face.now.gift.table_id ≡ place.old.table_id) × (face.now.gift.view ≡ gift place.old.me.0) }
    ensures { (place.new.table_id ≡ place.old.table_id) × (place.new.me ≡ place.old.me) }
{
    for index in 0..MOST_VIEWS as usize {
        let seat = chronicle.shared.split_seat::<Gift>(place);
        face.gift.give(index, seat);
    }
}
