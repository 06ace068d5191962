//! A network simplex on the line of nights: a guess of an optimal flow, of its prices and of each node's way.
//!
//! The tree is rooted at the last node and lets each node send a unit there (Cunningham's rule keeps it so), hence at
//! the end its potentials are the least prices and its arcs each node's way. Nothing of this is claimed: only that a
//! run is safe, ends, and takes no memory but what `Simplex::new` took. Who uses the guess tests it. So no access
//! has a contract: where there is no such arc or node, some number is answered, and sums may wrap.
//!
//! Sources: the primal network simplex with strongly feasible trees (Cunningham 1976; Ahuja, Magnanti and Orlin,
//! *Network Flows*, 1993, chapter 11), its tree with sizes and a thread, and block search for the arc that enters,
//! as in the LEMON library. Time: a pivot looks at a block of half the root of the arcs and walks the piece of the
//! tree that it moves; there are a few pivots for each arc where stays are as they come, and so many at most as
//! `PIVOTS` says.
//!
//! How the solver asks for a guess.
//!
//! ```
//! let mut simplex = Simplex::new(alloc, instance)?;
//! simplex.run();
//! ```
#![tactic(auto)]

mod arcs;
mod circle;
mod rates;
mod simplex;
mod thread;
mod tree;

pub use simplex::Simplex;
