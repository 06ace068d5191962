//! Setting an instance to another one that differs in rooms, rates and forecasts alone, without taking memory.
ghost use Rattle.std.specs.Prelude.{◌≡◌, ◌<◌, ◌≤◌, length, slice_set, IsTrue};
ghost use Rattle.bp_types.specs.declared.limits.TheConstants.{MOST_RATE, MOST_FORECAST};
ghost use Rattle.bp_types.specs.Program.{stay_at};
ghost use Rattle.bp_residual.specs.Alike.{IsAlike};

use crate::rooms::set_rooms;
use bp_types::{Change, Instance, Stay};

/// Whether two instances have as many nights, and the same spans in the same order. It takes the time of a look at each
/// stay.
pub(crate) fn is_alike(instance: &Instance, other: &Instance) -> bool
    ensures { IsTrue result → IsAlike instance.now other.now }
{
    if instance.nights() != other.nights() || instance.stays() != other.stays() {
        return false;
    }
    for stay in 0..instance.stays() {
        if instance.stay(stay).span != other.stay(stay).span {
            return false;
        }
    }
    true
}

/// Sets the forecast and the rate of a stay to those of another one of its span.
fn set_terms(instance: &mut Instance, stay: u32, terms: Stay)
    requires stay { stay < length instance.old.stays }
    requires span { (stay_at instance.old stay).span ≡ terms.span }
    requires rate { (1 ≤ terms.rate) × (terms.rate ≤ MOST_RATE) }
    requires forecast { terms.forecast ≤ MOST_FORECAST }
    ensures rooms { instance.new.rooms ≡ instance.old.rooms }
    ensures stays { instance.new.stays ≡ slice_set instance.old.stays stay terms }
{
    instance.apply(Change::Demand {
        stay,
        value: terms.forecast,
    });
    instance.apply(Change::Rate {
        stay,
        value: terms.rate,
    });
}

/// Sets the stays to those of an instance of the same spans.
fn set_stays(instance: &mut Instance, other: &Instance)
    requires { IsAlike instance.old other.now }
    ensures rooms { instance.new.rooms ≡ instance.old.rooms }
    ensures stays { instance.new.stays ≡ other.now.stays }
{
    for stay in 0..other.stays() {
        let terms = other.stay(stay);
        if instance.stay(stay) != terms {
            set_terms(instance, stay, terms);
        }
    }
}

/// Sets the rooms of each night to those of an instance of as many nights.
fn set_all_rooms(instance: &mut Instance, other: &Instance)
    requires { length instance.old.rooms ≡ length other.now.rooms }
    ensures rooms { instance.new.rooms ≡ other.now.rooms }
    ensures stays { instance.new.stays ≡ instance.old.stays }
{
    for night in 0..other.nights() {
        let rooms = other.rooms(night);
        if instance.rooms(night) != rooms {
            set_rooms(instance, night, rooms);
        }
    }
}

/// Sets an instance to another one of the same nights and spans, in the time of a look at each stay and night. It takes
/// no memory.
pub(crate) fn set_instance(instance: &mut Instance, other: &Instance)
    requires { IsAlike instance.old other.now }
    ensures { instance.new ≡ other.now }
{
    set_stays(instance, other);
    set_all_rooms(instance, other);
}
