//! What rooms cost an instance, by certificates before and after.
ghost use Rattle.std.specs.Prelude.{◌≡◌, false, length, IfOk, IsTrue};
ghost use Rattle.bp_types.specs.Changes.{changed, HasUnits};
ghost use Rattle.bp_types.specs.Spans.{IsSpanWithin};
ghost use Rattle.bp_types.specs.Displacement.{IsDisplacement};

use crate::{Claimed, optimal};
use bp_types::{Change, Instance, Span, law};
use std::alloc::Global;
use std::test::Fail;

/// Whether each night of a span has so many units.
fn has_units(instance: &Instance, span: Span, units: u64) -> bool
    requires { IsSpanWithin (length instance.now.rooms) span }
    ensures { IsTrue result → HasUnits instance.now span units }
{
    for night in span.from..span.to {
        if instance.rooms(night) < units {
            return false;
        }
    }
    true
}

/// What the optimum of an instance loses by so many units on each night of a span, in minor units of money, by an
/// optimal certificate of each. It fails where the span is none of the instance's, a night lacks the units, or a claim
/// is wrong.
pub fn displacement(
    alloc: Global,
    instance: &Instance,
    span: Span,
    units: u64,
    before: Claimed<'_>,
    after: Claimed<'_>,
) -> Result<u128, Fail>
    ensures { IfOk result (λ d. IsDisplacement instance.now span units d) }
{
    if span.from >= span.to || span.to > instance.nights() {
        return Err(Fail::new("not a span"));
    }
    if !has_units(instance, span, units) {
        return Err(Fail::new("no rooms"));
    }
    let mut fewer = instance.copy(alloc)?;
    fewer.apply(Change::Rooms {
        span,
        up: false,
        units,
    });
    let first = optimal(alloc, instance, before)?;
    let last = optimal(alloc, &fewer, after)?;
    law::certificates_tell_displacement();
    match first.value.checked_sub(last.value) {
        Some(displacement) => Ok(displacement),
        None => Err(Fail::new("worth more without the rooms")),
    }
}
