//! A residual network with ample memory.
use crate::instances::{Row, expect_certificate, instance_of};
use bp_residual::{ArcView, Flow, Hop};
use std::alloc::Global;
use std::process::Abort;
use std::test::Fail;

/// Two stays on two nights.
const TWO_STAYS: [Row; 2] = [(0, 2, 90, 2), (1, 2, 40, 1)];

/// The flow of these stays that sells nothing.
fn empty_flow(alloc: Global) -> Result<Flow, Fail> {
    let instance = instance_of(alloc, &[3, 5], &TWO_STAYS)?;
    let flow = Flow::empty(alloc, instance)?;
    Ok(flow)
}

/// A copy of it.
fn copied(alloc: Global) -> Result<Flow, Fail> {
    let flow = empty_flow(alloc)?;
    let copy = flow.copy(alloc)?;
    Ok(copy)
}

/// What contracts cannot say: that the calls succeed with ample memory.
#[test]
fn an_empty_flow_and_its_copy(rt: HostRuntime) -> Result<(), Fail> {
    let alloc = rt.alloc();
    let copy = copied(alloc)?;
    let certificate = copy.certificate(alloc)?;
    expect_certificate(&rt, &certificate, 0, &[0, 0], &[90, 90]);
    assert_eq!(rt; copy.arcs(), 4);
    assert_eq!(rt; copy.nights(), 2);
    Ok(())
}

/// Wants the arcs of the network, and the hops of its nodes.
fn expect_arcs_and_hops<R: Abort>(rt: &R, flow: &Flow) {
    if flow.arcs() != 4 || flow.nights() != 2 {
        assert!(rt; false, "two stays and two nights");
        return;
    }
    let stay = ArcView {
        tail: 0,
        head: 2,
        cost: -90,
        room: Some(2),
        flow: 0,
    };
    let free = ArcView {
        tail: 1,
        head: 2,
        cost: 0,
        room: None,
        flow: 0,
    };
    assert_eq!(rt; flow.arc(0), stay);
    assert_eq!(rt; flow.arc(3), free);
    let hops = flow.hops_at(1);
    assert!(rt; hops == [hop(1, true), hop(3, true), hop(2, false)].as_slice());
}

/// An arc, forward or backward.
fn hop(arc: u32, forward: bool) -> Hop {
    Hop { arc, forward }
}

#[test]
fn the_arcs_and_the_hops_of_a_node(rt: HostRuntime) -> Result<(), Fail> {
    let flow = empty_flow(rt.alloc())?;
    expect_arcs_and_hops(&rt, &flow);
    Ok(())
}
