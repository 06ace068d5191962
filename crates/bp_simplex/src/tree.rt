//! The tree of arcs with parents and sizes, and how a pivot hangs a piece of it anew.
use crate::arcs::Arc;
use crate::thread::{Spot, level_at, link, raise, spot_at};
use bp_types::Memory;
use bp_types::limits::MOST_NODES;
use std::alloc::Global;

/// No node.
const NONE: u32 = u32::MAX;

/// A node of the tree.
#[derive(Clone, Copy)]
pub(crate) struct Node {
    /// The node above it; `NONE` of the root.
    pub(crate) parent: u32,
    /// The arc between the two.
    pub(crate) arc: u32,
    /// Whether the arc leads from the node to the one above.
    pub(crate) up: bool,
    /// How many nodes the piece of the tree below has, itself counted.
    pub(crate) size: u32,
}

/// A tree of arcs with a potential for each node.
///
/// What is asked of a node that there is not is answered by some number, and nothing is written.
#[derive(Drop)]
pub(crate) struct Tree {
    nodes: Vec<Node>,
    spots: Vec<Spot>,
}

/// How a piece is cut off above `out`, and hung on `parent` by its node `inside`; both ways lead to `join`.
#[derive(Clone, Copy)]
pub(crate) struct Exchange {
    /// The end of the entering arc within the piece.
    pub(crate) inside: u32,
    /// Its other end.
    pub(crate) parent: u32,
    /// The entering arc.
    pub(crate) arc: u32,
    /// Whether it leads from `inside` to `parent`.
    pub(crate) up: bool,
    /// The node below the leaving arc.
    pub(crate) out: u32,
    /// Where both ways up the tree meet.
    pub(crate) join: u32,
    /// What is added to the potentials of the piece.
    pub(crate) by: i64,
}

/// The node of a number; one that hangs nowhere where there is none.
fn node_at(nodes: &[Node], number: u32) -> Node {
    let place = number as usize;
    if place < nodes.len() {
        nodes[place]
    } else {
        Node {
            parent: 0,
            arc: u32::MAX,
            up: true,
            size: 0,
        }
    }
}

/// Writes the node of a number.
fn put_node(nodes: &mut [Node], number: u32, node: Node) {
    let place = number as usize;
    if place < nodes.len() {
        nodes[place] = node;
    }
}

/// Adds to the sizes of the pieces below the nodes from one up to another, that one not counted.
fn resize(nodes: &mut [Node], start: u32, end: u32, by: u32) {
    let mut number = start;
    for _ in 0..MOST_NODES {
        if number == end {
            break;
        }
        let mut node = node_at(nodes, number);
        node.size = node.size.wrapping_add(by);
        put_node(nodes, number, node);
        number = node.parent;
    }
}

/// By how much an arc violates optimality; no more than 0 where it does not.
pub(crate) fn violation(spots: &[Spot], arc: Arc) -> i64 {
    let reduced = arc
        .cost
        .wrapping_add(level_at(spots, arc.tail))
        .wrapping_sub(level_at(spots, arc.head));
    reduced.wrapping_mul(arc.state.sign())
}

/// Hangs the nodes from `inside` up to `out` the other way round, and threads the piece anew; answers its last node
/// and the node behind it on the old thread.
fn turn(nodes: &mut [Node], spots: &mut [Spot], by: Exchange, size: u32) -> (u32, u32) {
    let mut number = by.inside;
    let mut old = node_at(nodes, number);
    let mut hung = Node {
        parent: by.parent,
        arc: by.arc,
        up: by.up,
        size,
    };
    let run = raise(spots, number, old.size, NONE, by.by);
    let mut last = run.last;
    let mut behind = run.behind;
    for _ in 0..MOST_NODES {
        put_node(nodes, number, hung);
        if number == by.out {
            break;
        }
        let parent = old.parent;
        let above = node_at(nodes, parent);
        let first = raise(spots, parent, above.size, number, by.by);
        link(spots, last, parent);
        last = first.last;
        let rest = above
            .size
            .saturating_sub(old.size.saturating_add(first.count));
        if rest > 0 {
            link(spots, last, behind);
            let second = raise(spots, behind, rest, NONE, by.by);
            last = second.last;
            behind = second.behind;
        }
        hung = Node {
            parent: number,
            arc: old.arc,
            up: !old.up,
            size: size.wrapping_sub(old.size),
        };
        number = parent;
        old = above;
    }
    (last, behind)
}

impl Tree {
    /// The line of so many nights, whose arcs are numbered from `first` on, rooted at the last node. The one error is
    /// `Memory`.
    pub(crate) fn line(alloc: Global, nights: u32, first: u32) -> Result<Tree, Memory> {
        let mut nodes = Vec::new(alloc);
        let mut spots = Vec::new(alloc);
        for night in 0..nights {
            nodes.push(Node {
                parent: night.wrapping_add(1),
                arc: first.wrapping_add(night),
                up: true,
                size: night.wrapping_add(1),
            })?;
            spots.push(Spot {
                level: 0,
                next: night.wrapping_sub(1),
                before: night.wrapping_add(1),
            })?;
        }
        nodes.push(Node {
            parent: NONE,
            arc: NONE,
            up: true,
            size: nights.wrapping_add(1),
        })?;
        spots.push(Spot {
            level: 0,
            next: nights.wrapping_sub(1),
            before: NONE,
        })?;
        Ok(Tree { nodes, spots })
    }

    /// The node of a number.
    pub(crate) fn node(&self, number: u32) -> Node {
        node_at(&self.nodes, number)
    }

    /// The potential of each node, and its place on the thread.
    pub(crate) fn spots(&self) -> &[Spot] {
        &self.spots
    }

    /// Takes the arc above `out` out of the tree, and another in. It walks the piece that moves, and both ways up to
    /// `join`.
    pub(crate) fn exchange(&mut self, by: Exchange) {
        let out = self.node(by.out);
        let size = out.size;
        resize(&mut self.nodes, out.parent, by.join, size.wrapping_neg());
        resize(&mut self.nodes, by.parent, by.join, size);
        let before = spot_at(&self.spots, by.out).before;
        let (last, behind) = turn(&mut self.nodes, &mut self.spots, by, size);
        link(&mut self.spots, before, behind);
        let next = spot_at(&self.spots, by.parent).next;
        link(&mut self.spots, by.parent, by.inside);
        link(&mut self.spots, last, next);
    }
}
