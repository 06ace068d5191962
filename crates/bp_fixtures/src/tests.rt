//! The claims, checked for their hotels.
use super::*;
use std::test::Fail;

/// Hotels that keep what is claimed of them.
const RIGHT: [Numbers<'static>; 4] = [
    THREE_NIGHTS,
    Numbers {
        rooms: &[1, 0, 2],
        sold: &NOTHING_SOLD,
        stays: &STAYS,
        opening: AFTER_ONE,
    },
    Numbers {
        rooms: &[2, 0, 1],
        sold: &NOTHING_SOLD,
        stays: &STAYS,
        opening: WITHOUT_ONE_EACH,
    },
    ONE_ROOM,
];

#[test]
fn each_claim_is_right_for_its_hotel(rt: HostRuntime) -> Result<(), Fail> {
    let alloc = rt.alloc();
    for hotel in &RIGHT {
        let house = house(alloc, hotel.rooms, hotel.sold, hotel.stays, LIMITS)?;
        let found = optimal(alloc, &house.instance(alloc)?, hotel.opening)?;
        assert!(rt; found.value == hotel.opening.0 && found.sell.as_slice() == hotel.opening.1);
        assert!(rt; found.prices.as_slice() == hotel.opening.2);
    }
    Ok(())
}

#[test]
fn a_room_on_the_last_two_nights_costs_150(rt: HostRuntime) -> Result<(), Fail> {
    let alloc = rt.alloc();
    let instance = instance(alloc, &ROOMS, &STAYS)?;
    let cost = displacement(alloc, &instance, N12, 1, OPENING, WITHOUT_ONE_EACH)?;
    assert_eq!(rt; cost, 150);
    Ok(())
}

#[test]
fn the_board_of_three_nights(rt: HostRuntime) -> Result<(), Fail> {
    let alloc = rt.alloc();
    let house = three_nights(alloc, LIMITS)?;
    let instance = house.instance(alloc)?;
    let board = board_of(alloc, &instance, 0, OPENING)?;
    assert_eq!(rt; board.certificate().value, 250);
    let opening = opening_board(alloc, &instance, certificate(alloc, OPENING)?)?;
    assert_eq!(rt; opening.certificate().value, 250);
    Ok(())
}
