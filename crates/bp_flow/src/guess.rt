//! What a network simplex found, taken over as a flow.
ghost use Rattle.std.specs.Prelude.{◌≡◌, ℕ, ◌+◌, ◌^◌, ◌<◌, ◌≤◌, length, slice_index, IfOk, All};
ghost use Rattle.bp_types.specs.declared.limits.TheConstants.{MOST_NODES};
ghost use Rattle.bp_residual.specs.Network.{Priced, arcs};
ghost use Rattle.bp_flow.specs.Solvers.{ColdSoFar, IsCarrying};

use crate::start::grow;
use bp_paths::Scratch;
use bp_residual::{Flow, Hop};
use bp_simplex::Simplex;
use bp_types::Instance;
use bp_types::limits::MOST_NODES;

/// The raises that lead from one price on all nights to the potentials of a simplex.
fn fill_levels(simplex: &Simplex, price: u64, by: &mut [u128])
    requires { length by.old ≤ MOST_NODES }
    ensures { All (λ x. x ≤ 10 ^ 30) by.new }
{
    for node in 0..by.len() {
        by[node] = u128::from(simplex.level(node as u32)) + node as u128 * u128::from(price);
    }
}

/// Sets the prices to those of a simplex.
fn set_prices(simplex: &Simplex, flow: &mut Flow, instance: &Instance)
    requires { IsCarrying instance.now flow.old }
    ensures { IsCarrying instance.now flow.new }
{
    let nights = flow.nights() as usize;
    let price = flow.level(0).saturating_sub(flow.level(1));
    let mut by = [0u128; MOST_NODES];
    let raises = &mut by[..nights + 1];
    fill_levels(simplex, price, raises);
    flow.lift(raises);
}

/// What a simplex sells of a stay, where the prices leave that open; all of it where it is worth more than they ask,
/// and none where it is worth less.
fn stay_units(simplex: &Simplex, flow: &Flow, stay: u32) -> u64
    requires { stay < length flow.now.flow.program.stays }
{
    let _nights = flow.nights();
    let terms = flow.stay(stay);
    let asked = flow.level(terms.span.from);
    let worth = u128::from(flow.level(terms.span.to)) + u128::from(terms.rate);
    if worth > u128::from(asked) {
        terms.forecast
    } else if worth < u128::from(asked) {
        0
    } else {
        simplex.carries(stay).min(terms.forecast)
    }
}

/// What a simplex leaves spare on a night; none where it has a price.
fn night_units(simplex: &Simplex, flow: &Flow, night: u32) -> u64
    requires { night < length flow.now.flow.program.rooms }
{
    let _nights = flow.nights();
    if flow.level(night) > flow.level(night + 1) {
        0
    } else {
        simplex.carries(flow.stays().wrapping_add(night))
    }
}

/// How many units are to be sent over an arc.
fn units_over(simplex: &Simplex, flow: &Flow, arc: u32) -> u64
    requires { arc < arcs flow.now.flow.program }
{
    let stays = flow.stays();
    if arc < stays {
        stay_units(simplex, flow, arc)
    } else {
        night_units(simplex, flow, arc - stays)
    }
}

/// Sends over each arc what a simplex sends, brought to a bound where the prices ask for that.
fn set_flow(simplex: &Simplex, flow: &mut Flow, instance: &Instance)
    requires { IsCarrying instance.now flow.old }
    ensures { IsCarrying instance.now flow.new }
{
    let _nights = flow.nights();
    for arc in 0..flow.arcs() {
        let units = units_over(simplex, flow, arc);
        if units > 0 {
            grow(flow, arc, units, instance);
        }
    }
}

/// Makes of an empty flow what a simplex found: its prices, and what it sends. Nothing rests on it but time.
pub(crate) fn take_over(simplex: &Simplex, flow: &mut Flow, instance: &Instance)
    requires { IsCarrying instance.now flow.old }
    ensures { IsCarrying instance.now flow.new }
{
    set_prices(simplex, flow, instance);
    set_flow(simplex, flow, instance);
}

/// Keeps the tree of a simplex as each node's way to the last one.
pub(crate) fn keep_ways(simplex: &Simplex, nights: u32, scratch: &mut Scratch)
    ensures { scratch.new ≡ scratch.old }
{
    for node in 0..nights {
        let (arc, forward) = simplex.way(node);
        scratch.keep_way(node, Hop { arc, forward }, simplex.rank(node));
    }
}
