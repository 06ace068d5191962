//! The stays that are drawn for a demo.
use crate::three_nights::stay;
use bp_script::generate;
use std::test::Fail;

#[test]
fn the_stays_that_a_seed_draws(rt: HostRuntime) -> Result<(), Fail> {
    // By hand: the draws are 16807, 282475249, 1622650073 and 984943658.
    let one = generate(rt.alloc(), 0, 1, 1, 1)?;
    assert_eq!(rt; (one.nights(), one.rooms(0), one.stays()), (1, 1, 1));
    assert_eq!(rt; one.stay(0), stay(0, 1, 5_073, 18));
    // By a calculation beside this program, of the greatest seed.
    let largest = generate(rt.alloc(), 999_999_999, 400, 10_000, 4_000)?;
    assert_eq!(rt;
        (largest.nights(), largest.rooms(399), largest.stays()),
        (400, 10_000, 4_000)
    );
    assert_eq!(rt; largest.stay(0), stay(178, 182, 22_664, 3));
    Ok(())
}
