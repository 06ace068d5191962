//! Every small instance, from every start.
ghost use Rattle.std.specs.Prelude.{◌≡◌, ◌<◌};

use crate::instances::{Row, instance_of};
use crate::small::Small;
use bp_flow::Solver;
use bp_simplex::Simplex;
use bp_types::{Certificate, Instance, Memory, Steps};
use std::alloc::Global;
use std::marker::Brand;
use std::process::Abort;
use std::sync::ledger::{Blank, Ledger};
use std::test::Fail;

/// More rooms than any small instance has stays for: a start that has them left is not taken.
const MANY_ROOMS: u64 = 900_000;

/// What a solve begins with.
#[derive(Clone, Copy, Debug)]
enum Start {
    /// Nothing is sold: the simplex is of a house that has far too many rooms, so what it holds is refused.
    Empty,
    /// The simplex, run to its end.
    Whole,
    /// The simplex, cut off after so many pivots.
    CutOff { pivots: usize },
}

/// A simplex of so many stays and nights makes no more pivots than this.
const STARTS: [Start; 10] = [
    Start::Empty,
    Start::Whole,
    Start::CutOff { pivots: 0 },
    Start::CutOff { pivots: 1 },
    Start::CutOff { pivots: 2 },
    Start::CutOff { pivots: 3 },
    Start::CutOff { pivots: 4 },
    Start::CutOff { pivots: 5 },
    Start::CutOff { pivots: 6 },
    Start::CutOff { pivots: 7 },
];

/// A simplex that has come as far as a start says.
fn simplex_of(alloc: Global, small: Small<'_>, start: Start) -> Result<Simplex, Fail> {
    let rooms = match start {
        Start::Empty => &[MANY_ROOMS; 3][..small.rooms.len().min(3)],
        Start::Whole | Start::CutOff { .. } => small.rooms,
    };
    let instance = instance_of(alloc, rooms, small.stays)?;
    let mut simplex = Simplex::new(alloc, &instance)?;
    match start {
        Start::Empty => {}
        Start::Whole => simplex.run(),
        Start::CutOff { pivots } => simplex.run_for(pivots),
    }
    Ok(simplex)
}

/// The certificate of a solve that begins with what a simplex holds.
fn solved_from<L: Ledger>(
    alloc: Global,
    instance: &Instance,
    simplex: &Simplex,
    blank: Blank,
) -> Result<Certificate, Memory>
    requires name { blank.name ≡ L.name }
    requires parts { blank.parts ≡ L.parts }
    requires some { 0 < blank.parts }
{
    let mut steps: Steps<L> = Steps::new(blank);
    let solver = Solver::cold_from(alloc, instance, simplex, &mut steps)?;
    solver.certificate(alloc)
}

/// The optimum and the least prices of a small instance are those of the plain search, whatever a solve begins with.
fn expect_from_each_start<R: Abort>(rt: &R, alloc: Global, small: Small<'_>) -> Result<(), Fail> {
    let instance = instance_of(alloc, small.rooms, small.stays)?;
    let optimum = small.optimum();
    let [first, second, third] = small.least_sums(optimum);
    let prices = [
        first.saturating_sub(second),
        second.saturating_sub(third),
        third,
    ];
    let prices = &prices[..small.rooms.len().min(3)];
    for start in STARTS {
        let simplex = simplex_of(alloc, small, start)?;
        let found = solved_from::<Brand>(alloc, &instance, &simplex, Blank::new(1))?;
        let Small { rooms, stays } = small;
        assert_eq!(rt;
            found.value,
            u128::from(optimum),
            "{rooms:?} {stays:?} from {start:?}"
        );
        assert!(rt;
            found.prices.as_slice() == prices,
            "{rooms:?} {stays:?} from {start:?}"
        );
    }
    Ok(())
}

/// The rates of the stays.
const RATES: [u64; 2] = [1, 3];

/// One of the eighteen stays of two nights, whose forecast may be 0.
fn stay_of_two(number: usize) -> Row {
    let (from, to) = [(0, 1), (1, 2), (0, 2)][number % 3];
    (from, to, RATES[number / 3 % 2], (number / 6 % 3) as u64)
}

#[test]
fn every_instance_of_two_nights_and_two_stays(rt: HostRuntime) -> Result<(), Fail> {
    for number in 0..9 * 18 * 18usize {
        let rooms = [(number % 3) as u64, (number / 3 % 3) as u64];
        let stays = [stay_of_two(number / 9 % 18), stay_of_two(number / 162)];
        let small = Small {
            rooms: &rooms,
            stays: &stays,
        };
        expect_from_each_start(&rt, rt.alloc(), small)?;
    }
    Ok(())
}

/// One of the 24 stays of three nights.
fn stay_of_three(number: usize) -> Row {
    let (from, to) = [(0, 1), (1, 2), (2, 3), (0, 2), (1, 3), (0, 3)][number % 6];
    (
        from,
        to,
        RATES[number / 6 % 2],
        (1 + number / 12 % 2) as u64,
    )
}

#[test]
fn every_instance_of_three_nights_and_three_stays(rt: HostRuntime) -> Result<(), Fail> {
    for number in 0..8 * 24 * 24 * 24usize {
        let places = [number / 8 % 24, number / 192 % 24, number / 4608];
        if places[0] < places[1] || places[1] < places[2] {
            continue;
        }
        let rooms = [
            (1 + number % 2) as u64,
            (1 + number / 2 % 2) as u64,
            (1 + number / 4 % 2) as u64,
        ];
        let stays = [
            stay_of_three(places[0]),
            stay_of_three(places[1]),
            stay_of_three(places[2]),
        ];
        let small = Small {
            rooms: &rooms,
            stays: &stays,
        };
        expect_from_each_start(&rt, rt.alloc(), small)?;
    }
    Ok(())
}
