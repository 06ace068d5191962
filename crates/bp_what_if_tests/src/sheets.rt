//! The sheet of three nights, and the bands of nights without rooms and with all.
use crate::hotel::three_nights;
use bp_edges::MemorySink;
use bp_sheets::{bands, sheet};
use bp_types::{Instance, Span, Stay};
use std::test::Fail;

/// The sheet of three nights, worked out by hand.
const SHEET: &[u8] = b"night 0 price 0 gain 0 loss 0
night 1 price 100 gain 100 loss 110
night 2 price 40 gain 40 loss 40
arrival 0 least 1 hurdles 0 100 140
arrival 1 least 2 hurdles 100 140
arrival 2 least 1 hurdles 40
";

/// A stay of the first night alone.
const CLOSED: Stay = Stay {
    span: Span { from: 0, to: 1 },
    rate: 100,
    forecast: 1,
};

#[test]
fn the_sheet_of_three_nights(rt: HostRuntime) -> Result<(), Fail> {
    let alloc = rt.alloc();
    let instance = three_nights(alloc, &[2, 1, 2])?;
    let mut out = MemorySink::new(Vec::new(alloc));
    sheet(alloc, &instance, &mut out)?;
    assert!(rt; out.written() == SHEET);
    Ok(())
}

#[test]
fn a_night_without_rooms_has_no_loss_and_a_full_one_no_gain(rt: HostRuntime) -> Result<(), Fail> {
    let alloc = rt.alloc();
    let rooms = Vec::from_slice(alloc, &[0, 10_000])?;
    let stays = Vec::from_slice(alloc, &[CLOSED])?;
    let instance = Instance::new(rooms, stays)?;
    let found = bands(alloc, &instance)?;
    assert_eq!(rt; found.len(), 2);
    assert_eq!(rt; found[0].price, 100);
    assert_eq!(rt; found[0].gain, Some(100));
    assert_eq!(rt; found[0].loss, None);
    assert_eq!(rt; found[1].gain, None);
    assert_eq!(rt; found[1].loss, Some(0));
    Ok(())
}
