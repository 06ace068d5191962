//! The circle that an entering arc closes with the tree: how much can go round, and which arc leaves the tree for it.
use crate::arcs::{Load, MUCH, load_at, send};
use crate::tree::Tree;
use bp_types::limits::MOST_NODES;

/// The circle that an arc from `first` to `second` closes with the tree.
#[derive(Clone, Copy)]
pub(crate) struct Circle {
    /// The node from which units go over the entering arc.
    pub(crate) first: u32,
    /// The node to which they go.
    pub(crate) second: u32,
    /// Where the ways of both up the tree meet.
    pub(crate) join: u32,
    /// How many units can go round.
    pub(crate) units: i64,
    /// The arc that leaves the tree, or none.
    pub(crate) leaves: Leaves,
}

/// Which arc has room for no more: the entering one, or the one above a node of a side.
#[derive(Clone, Copy)]
pub(crate) enum Leaves {
    /// The entering arc, which goes to its other bound.
    Entering,
    /// The arc above this node, on the way of the first.
    First { out: u32 },
    /// The arc above this node, on the way of the second.
    Second { out: u32 },
}

impl Circle {
    /// Walks to where the sides meet. The last arc of the circle that has the least room leaves (Cunningham's rule). It
    /// takes the time of the circle's arcs.
    pub(crate) fn of(tree: &Tree, loads: &[Load], first: u32, second: u32, room: i64) -> Circle {
        let mut near = first;
        let mut far = second;
        let mut units = room;
        let mut back = MUCH;
        let mut leaves = Leaves::Entering;
        let mut last = second;
        for _ in 0..MOST_NODES {
            if near == far {
                break;
            }
            let a = tree.node(near);
            let b = tree.node(far);
            if a.size < b.size {
                let left = load_at(loads, a.arc).left(!a.up);
                if left < units {
                    units = left;
                    leaves = Leaves::First { out: near };
                }
                near = a.parent;
            } else {
                let left = load_at(loads, b.arc).left(b.up);
                if left <= back {
                    back = left;
                    last = far;
                }
                far = b.parent;
            }
        }
        if back <= units {
            units = back;
            leaves = Leaves::Second { out: last };
        }
        Circle {
            first,
            second,
            join: near,
            units,
            leaves,
        }
    }

    /// Sends the units along both sides.
    pub(crate) fn send(self, tree: &Tree, loads: &mut [Load]) {
        send_along(tree, loads, self.first, self.join, false, self.units);
        send_along(tree, loads, self.second, self.join, true, self.units);
    }
}

/// Sends units along the tree from a node up to another (`rising`), or down.
fn send_along(tree: &Tree, loads: &mut [Load], start: u32, end: u32, rising: bool, units: i64) {
    let mut number = start;
    for _ in 0..MOST_NODES {
        if number == end {
            break;
        }
        let node = tree.node(number);
        send(loads, node.arc, node.up == rising, units);
        number = node.parent;
    }
}
