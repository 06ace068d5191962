//! Arcs, where each stands, and what each carries.

/// More than any flow.
pub(crate) const MUCH: i64 = 1_000_000_000_000_000;

/// Where an arc stands: at one of its bounds, or in the tree.
#[derive(Clone, Copy, PartialEq, Eq)]
pub(crate) enum State {
    /// At its lower bound: it carries nothing.
    Lower,
    /// In the tree, where its reduced cost is 0; also an arc without room, which never enters.
    Tree,
    /// At its upper bound: it carries all that it has room for.
    Upper,
}

impl State {
    /// 1 where a positive reduced cost violates optimality, -1 where a negative one does.
    pub(crate) fn sign(self) -> i64 {
        match self {
            State::Lower => -1,
            State::Tree => 0,
            State::Upper => 1,
        }
    }
}

/// An arc: what a unit costs, where it leads, and where it stands.
#[derive(Clone, Copy)]
pub(crate) struct Arc {
    /// In minor units of money: minus the rate for a stay, 0 for a free arc.
    pub(crate) cost: i64,
    /// The node that it leaves.
    pub(crate) tail: u32,
    /// The node that it reaches.
    pub(crate) head: u32,
    /// Where it stands.
    pub(crate) state: State,
}

/// What an arc carries, and what it has room for in all, in units.
#[derive(Clone, Copy)]
pub(crate) struct Load {
    /// The units that it carries.
    pub(crate) flow: i64,
    /// The units that it has room for.
    pub(crate) room: i64,
}

impl Load {
    /// How many units more (`forward`), or fewer, it can carry.
    pub(crate) fn left(self, forward: bool) -> i64 {
        if forward {
            self.room.wrapping_sub(self.flow)
        } else {
            self.flow
        }
    }

    /// The load with so many units more (`forward`), or fewer.
    fn add(self, forward: bool, units: i64) -> Load {
        let flow = if forward {
            self.flow.wrapping_add(units)
        } else {
            self.flow.wrapping_sub(units)
        };
        Load {
            flow,
            room: self.room,
        }
    }
}

/// The arc of a number; one of the tree where there is none.
pub(crate) fn arc_at(arcs: &[Arc], number: u32) -> Arc {
    let place = number as usize;
    if place < arcs.len() {
        arcs[place]
    } else {
        Arc {
            cost: 0,
            tail: 0,
            head: 0,
            state: State::Tree,
        }
    }
}

/// Says where an arc stands.
pub(crate) fn set_state(arcs: &mut [Arc], number: u32, state: State) {
    let place = number as usize;
    if place < arcs.len() {
        arcs[place].state = state;
    }
}

/// The load of an arc; nothing, and no room, where there is none.
pub(crate) fn load_at(loads: &[Load], number: u32) -> Load {
    let place = number as usize;
    if place < loads.len() {
        loads[place]
    } else {
        Load { flow: 0, room: 0 }
    }
}

/// Sends units over an arc, with it (`forward`) or against it.
pub(crate) fn send(loads: &mut [Load], number: u32, forward: bool, units: i64) {
    let place = number as usize;
    if place < loads.len() {
        loads[place] = loads[place].add(forward, units);
    }
}
