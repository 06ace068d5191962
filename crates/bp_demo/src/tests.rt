//! The demo of one stay, worked out by hand, and that of a season, made twice.
use crate::demo;
use std::test::Fail;

/// One night, one room and one stay.
const ONE_STAY: &[u8] = b"demo 0 1 1 1
value 5073
prices 5073
accepted 1
toolow 0
noroom 0
closing 0
";

/// A season: 120 nights of 50 rooms, and 800 stays.
const SEASON: &[u8] = b"demo 7 120 50 800
value 77047811
prices 1422841
accepted 244
toolow 556
noroom 0
closing 65820548
";

#[test]
fn the_demo_of_one_stay(rt: HostRuntime) -> Result<(), Fail> {
    let text = demo(rt.alloc(), 0, 1, 1, 1)?;
    assert!(rt; text.text() == ONE_STAY);
    Ok(())
}

#[test]
fn the_demo_of_a_season(rt: HostRuntime) -> Result<(), Fail> {
    let alloc = rt.alloc();
    let first = demo(alloc, 7, 120, 50, 800)?;
    let again = demo(alloc, 7, 120, 50, 800)?;
    assert!(rt; first.text() == SEASON);
    assert!(rt; first.text() == again.text());
    Ok(())
}
