//! The thread: all nodes in a row, each before those below it in the tree, with their potentials.

/// A node's potential, and its neighbours on the thread: the nodes in an order that has each before those below it,
/// so that a piece is a run of the thread.
#[derive(Clone, Copy)]
pub(crate) struct Spot {
    /// The potential above the last node's, in minor units of money.
    pub(crate) level: i64,
    /// The node behind it.
    pub(crate) next: u32,
    /// The node before it.
    pub(crate) before: u32,
}

/// A run of the thread.
#[derive(Clone, Copy)]
pub(crate) struct Run {
    /// Its last node.
    pub(crate) last: u32,
    /// How many nodes it has.
    pub(crate) count: u32,
    /// The node behind its last one.
    pub(crate) behind: u32,
}

/// The spot of a node; one without neighbours where there is none.
pub(crate) fn spot_at(spots: &[Spot], node: u32) -> Spot {
    let place = node as usize;
    if place < spots.len() {
        spots[place]
    } else {
        Spot {
            level: 0,
            next: u32::MAX,
            before: u32::MAX,
        }
    }
}

/// The potential of a node; 0 where there is none.
pub(crate) fn level_at(spots: &[Spot], node: u32) -> i64 {
    let place = node as usize;
    if place < spots.len() {
        spots[place].level
    } else {
        0
    }
}

/// Adds to the potentials of so many nodes from one on, or of fewer where `end` comes before; answers the run of them.
pub(crate) fn raise(spots: &mut [Spot], start: u32, most: u32, end: u32, by: i64) -> Run {
    let mut run = Run {
        last: start,
        count: 0,
        behind: start,
    };
    for _ in 0..most {
        let place = run.behind as usize;
        if run.behind == end || spots.len() <= place {
            break;
        }
        spots[place].level = spots[place].level.wrapping_add(by);
        run = Run {
            last: run.behind,
            count: run.count.wrapping_add(1),
            behind: spots[place].next,
        };
    }
    run
}

/// Puts a node behind another.
pub(crate) fn link(spots: &mut [Spot], first: u32, second: u32) {
    let place = first as usize;
    if place < spots.len() {
        spots[place].next = second;
    }
    let place = second as usize;
    if place < spots.len() {
        spots[place].before = first;
    }
}
