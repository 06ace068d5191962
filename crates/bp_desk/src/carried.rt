//! An instance that is carried along the history of a shared desk, up to a position that a pass has seen.
ghost use Rattle.std.specs.Prelude.{◌≡◌, ◌<◌, ◌≤◌, length, IfOk};
ghost use Rattle.bp_types.specs.House.{opening};
ghost use Rattle.bp_types.specs.Changes.{changed_by_all, FitInTurn};
ghost use Rattle.bp_desk.specs.Carrying.{IsCarried};
ghost use Rattle.bp_desk.specs.Submitting.{HasReadOn};

use crate::desk::Desk;
use crate::pass::Pass;
use bp_types::{Change, Instance, Memory};
use std::alloc::Global;
use std::sync::Wait;

/// How many changes are read at one turn: each entry makes two at most.
const BATCH: usize = 256;

/// The instance of a house, carried along its history up to a position, and room for the changes of one turn.
#[derive(Drop)]
pub(crate) struct Carried {
    pub(crate) instance: Instance,
    position: u64,
    changes: Vec<Change>,
}

impl Carried {
    /// A copy of the instance at position 0, with room for the changes to come. The one error is `Memory`.
    pub(crate) fn of(alloc: Global, pass: &Pass, start: &Instance) -> Result<Carried, Memory>
        requires { start.now ≡ opening pass.now.house }
        ensures { IfOk result (λ c. IsCarried pass.now.house pass.now.seen c × (c.position ≡ 0)) }
    {
        let instance = start.copy(alloc)?;
        let changes = Vec::with_capacity(alloc, BATCH)?;
        Ok(Carried {
            instance,
            position: 0,
            changes,
        })
    }
}

impl Desk {
    /// Carries an instance on to a position that the pass has seen, in as many turns as there are batches of changes.
    pub(crate) fn carry_to<R: Wait>(
        &self,
        rt: &R,
        pass: &mut Pass,
        carried: &mut Carried,
        until: u64,
    )
        requires desk { pass.old.desk ≡ self.now }
        requires seen { until ≤ length pass.old.seen }
        requires before { carried.old.position ≤ until }
        requires carried { IsCarried pass.old.house pass.old.seen carried.old }
        ensures carried { IsCarried pass.old.house pass.old.seen carried.new }
        ensures position { carried.new.position ≡ until }
        ensures pass { HasReadOn pass.old pass.new }
    {
        pass.facts();
        while carried.position < until {
            self.carry_once(rt, pass, carried, until);
        }
    }

    /// Carries it on by the changes of one turn.
    fn carry_once<R: Wait>(&self, rt: &R, pass: &mut Pass, carried: &mut Carried, until: u64)
        requires desk { pass.old.desk ≡ self.now }
        requires seen { until ≤ length pass.old.seen }
        requires before { carried.old.position < until }
        requires carried { IsCarried pass.old.house pass.old.seen carried.old }
        ensures carried { IsCarried pass.old.house pass.old.seen carried.new }
        ensures moves { (carried.old.position < carried.new.position) × (carried.new.position ≤ until) }
        ensures pass { HasReadOn pass.old pass.new }
    {
        carried.changes.clear();
        let reached = self.changes_until(rt, pass, carried.position, until, &mut carried.changes);
        make_all(&mut carried.instance, &carried.changes);
        carried.position = reached;
    }
}

/// Makes changes in turn.
fn make_all(instance: &mut Instance, changes: &[Change])
    requires { FitInTurn instance.old changes.now }
    ensures { instance.new ≡ changed_by_all instance.old changes.now }
{
    for change in changes {
        instance.apply(*change);
    }
}
