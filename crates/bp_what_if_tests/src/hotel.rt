//! The hotel of three nights that the tests share.
ghost use Rattle.std.specs.Prelude.{◌≡◌, IfOk};

use bp_fixtures::{STAYS, instance};
use bp_types::Instance;
use std::alloc::Global;
use std::test::Fail;

/// The four stays, with so many rooms on each night.
pub(crate) fn three_nights(alloc: Global, rooms: &[u64]) -> Result<Instance, Fail>
    ensures { IfOk result (λ p. p.rooms ≡ rooms.now) }
{
    instance(alloc, rooms, &STAYS)
}
