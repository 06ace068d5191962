//! Tests: two threads that log, looks that rise, a turn without an entry; and that a lock is shared and its seats move.
ghost use Rattle.std.specs.Prelude.{◌≡◌, ◌<◌, ◌≤◌, ◌++◌, ◌∷◌, [], true, false, IfOk};
ghost use Rattle.bp_types.specs.declared.limits.TheConstants.{CALLERS};
ghost use Rattle.bp_turn.specs.Prefix.{IsPrefix};

use crate::{Memory, Story, Turn, TurnSeat};
use std::alloc::Global;
use std::sync::Wait;
use std::test::Fail;
use std::thread::{Threads, join};

/// Pairs of a caller and a number.
#[derive(Drop)]
struct Log {
    pairs: Vec<(u32, u32)>,
}

impl Story for Log {
    type Fixed = ();

    type Entry = (u32, u32);

    ghost fixed = { λ _. tt };

    ghost story = { λ s. s.pairs.items };

    ghost caller = { λ e. e.0 };

    fn length(&self) -> u64 {
        self.pairs.len() as u64
    }
}

/// A lock over a log with these entries of caller 0, its first seat, and a seat with the other number.
fn opened(
    alloc: Global,
    numbers: &[u32],
    other: u32,
) -> Result<(Turn<Log>, TurnSeat<Log>, TurnSeat<Log>), Memory>
    requires { (1 ≤ other) × (other < CALLERS) }
    ensures first { IfOk result (λ r. (r.1.lock ≡ r.0) × (r.1.number ≡ 0) × (r.1.has_turn ≡ false)) }
    ensures second { IfOk result (λ r. (r.2.lock ≡ r.0) × (r.2.number ≡ other) × (r.2.has_turn ≡ false)) }
{
    let mut pairs = Vec::new(alloc);
    for &number in numbers {
        let Ok(()) = pairs.push((0, number)) else {
            return Err(Memory);
        };
    }
    let (turn, mut first) = Turn::new(alloc, Log { pairs })?;
    let second = turn.split(alloc, &mut first, other)?;
    Ok((turn, first, second))
}

/// Adds an entry. Without memory it adds none.
fn add<R: Wait>(
    rt: &R,
    turn: &Turn<Log>,
    seat: &mut TurnSeat<Log>,
    caller: u32,
    number: u32,
) -> bool
    requires lock { (seat.old.lock ≡ turn.now) × (seat.old.has_turn ≡ false) × (seat.old.number ≡ caller) }
    ensures seat { (seat.new.lock ≡ seat.old.lock) × (seat.new.has_turn ≡ false) × (seat.new.number ≡ caller) }
    ensures own { result ≡ true → seat.new.own ≡ seat.old.own ++ (caller, number) ∷ [] }
    ensures seen { IsPrefix seat.old.seen seat.new.seen }
{
    let mut log = turn.take(rt, seat);
    if log.pairs.push((caller, number)).is_err() {
        turn.give(seat, log);
        return false;
    }
    turn.give_logged(seat, log);
    true
}

/// Adds the numbers from 0 to 99.
fn add_hundred<R: Wait>(
    rt: &R,
    turn: &Turn<Log>,
    mut seat: TurnSeat<Log>,
    caller: u32,
) -> TurnSeat<Log>
    requires { (seat.lock ≡ turn.now) × (seat.has_turn ≡ false) × (seat.number ≡ caller) }
    ensures { (result.lock ≡ turn.now) × (result.has_turn ≡ false) × (result.number ≡ caller) }
{
    for number in 0..100 {
        add(rt, turn, &mut seat, caller, number);
    }
    seat
}

/// A turn that adds nothing.
fn pass_by<B: Story, R: Wait>(rt: &R, turn: &Turn<B>, mut seat: TurnSeat<B>) -> TurnSeat<B>
    requires { (seat.lock ≡ turn.now) × (seat.has_turn ≡ false) }
    ensures { (result.lock ≡ turn.now) × (result.has_turn ≡ false) × (result.number ≡ seat.number) ×
        (result.own ≡ seat.own) }
{
    let value = turn.take(rt, &mut seat);
    turn.give(&mut seat, value);
    seat
}

/// A lock over any value that may move is shared by threads, and its seats move to them.
fn pass_by_both<B: Story + Send, R: Threads + Wait + Sync>(
    rt: &R,
    turn: &Turn<B>,
    one: TurnSeat<B>,
    two: TurnSeat<B>,
) -> (TurnSeat<B>, TurnSeat<B>)
    requires { (one.lock ≡ turn.now) × (two.lock ≡ turn.now) × (one.has_turn ≡ false) × (two.has_turn ≡ false) }
    ensures one { (result.0.lock ≡ turn.now) × (result.0.has_turn ≡ false) × (result.0.number ≡ one.number) }
    ensures two { (result.1.lock ≡ turn.now) × (result.1.has_turn ≡ false) × (result.1.number ≡ two.number) }
{
    join(rt, || pass_by(rt, turn, one), || pass_by(rt, turn, two))
}

#[test]
fn two_threads_log(rt: HostRuntime) -> Result<(), Fail> {
    let Ok((turn, first, second)) = opened(rt.alloc(), &[], 7) else {
        return Err("memory".into());
    };
    let (mut first, second) = join(
        &rt,
        || add_hundred(&rt, &turn, first, 0),
        || add_hundred(&rt, &turn, second, 7),
    );
    turn.join(&mut first, second);
    let log = turn.take(&rt, &mut first);
    let mut counts = [0u32; 8];
    for &(caller, number) in &log.pairs {
        assert!(rt; caller < 8 && counts[caller as usize] == number);
        counts[caller as usize] = number.wrapping_add(1);
    }
    assert!(rt; log.pairs.len() == 200 && counts[0] == 100 && counts[7] == 100);
    turn.give(&mut first, log);
    Ok(())
}

#[test]
fn a_look_that_rises(rt: HostRuntime) -> Result<(), Fail> {
    for (numbers, before, after) in [(&[] as &[u32], 0, 1), (&[4], 1, 2), (&[4, 4, 9], 3, 4)] {
        let Ok((turn, mut first, mut second)) = opened(rt.alloc(), numbers, 1) else {
            return Err("memory".into());
        };
        assert_eq!(rt; turn.peek(&mut first), before);
        assert!(rt; add(&rt, &turn, &mut second, 1, 5));
        assert_eq!(rt; turn.peek(&mut first), after);
        let Ok(()) = turn.meet(rt.alloc(), &mut first, &mut second) else {
            unreachable!();
        };
        turn.join(&mut first, second);
    }
    Ok(())
}

#[test]
fn a_refused_turn_between_two_logs(rt: HostRuntime) -> Result<(), Fail> {
    let Ok((turn, mut first, second)) = opened(rt.alloc(), &[], 63) else {
        return Err("memory".into());
    };
    assert!(rt; add(&rt, &turn, &mut first, 0, 10));
    let (mut first, mut second) = pass_by_both(&rt, &turn, first, second);
    assert_eq!(rt; turn.peek(&mut second), 1);
    assert!(rt; add(&rt, &turn, &mut second, 63, 20));
    let log = turn.take(&rt, &mut first);
    assert!(rt; log.pairs.as_slice() == [(0, 10), (63, 20)].as_slice());
    turn.give(&mut first, log);
    Ok(())
}
