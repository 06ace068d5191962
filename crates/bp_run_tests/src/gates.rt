//! Gates that hold callers until others have arrived.
use bp_edges::Gate;
use std::sync::Wait;
use std::sync::atomic::AtomicU64;
use std::sync::atomic::Ordering::SeqCst;
use std::thread::yield_now;

/// How often a caller looks before it goes on all the same.
const MOST_LOOKS: u64 = 50_000_000;

/// How often callers 1 and 2 have arrived, and how often one of them went on without what it waited for.
#[derive(Drop)]
pub(crate) struct Arrivals {
    first: AtomicU64,
    second: AtomicU64,
    gave_up: AtomicU64,
}

impl Arrivals {
    /// Nobody has arrived.
    pub(crate) fn new() -> Arrivals {
        Arrivals {
            first: AtomicU64::new(0),
            second: AtomicU64::new(0),
            gave_up: AtomicU64::new(0),
        }
    }

    /// Whether some caller went on without what it waited for.
    pub(crate) fn was_in_vain(&self) -> bool {
        self.gave_up.load(SeqCst) > 0
    }

    /// Notes that a caller has arrived for the nth time.
    fn count(&self, caller: u32, nth: u64) {
        match caller {
            1 => self.first.store(nth, SeqCst),
            2 => self.second.store(nth, SeqCst),
            _ => {}
        }
    }

    /// Waits until a caller has arrived so often.
    fn wait_for(&self, arrivals: &AtomicU64, often: u64) {
        for _ in 0..MOST_LOOKS {
            if arrivals.load(SeqCst) >= often {
                return;
            }
            yield_now();
        }
        self.gave_up.store(1, SeqCst);
    }
}

/// Holds the second call of caller 1 until caller 2 has arrived twice since.
#[derive(Drop)]
pub(crate) struct OneRoundBetween {
    pub arrivals: Arrivals,
}

impl Gate for OneRoundBetween {
    fn arrive(&self, _rt: &impl Wait, caller: u32, nth: u64) {
        let arrivals = &self.arrivals;
        arrivals.count(caller, nth);
        if caller == 1 && nth == 2 {
            let before = arrivals.second.load(SeqCst);
            arrivals.wait_for(&arrivals.second, before.saturating_add(2));
        }
    }
}

/// Lets callers 1 and 2 make their first three calls in turns: 1, 2, 1, 2, and then both the third.
#[derive(Drop)]
pub(crate) struct InTurns {
    pub arrivals: Arrivals,
}

impl Gate for InTurns {
    fn arrive(&self, _rt: &impl Wait, caller: u32, nth: u64) {
        let arrivals = &self.arrivals;
        arrivals.count(caller, nth);
        match (caller, nth) {
            (2, 1) => arrivals.wait_for(&arrivals.first, 2),
            (1, 2) => arrivals.wait_for(&arrivals.second, 2),
            (2, 2) => arrivals.wait_for(&arrivals.first, 3),
            (1, 3) => arrivals.wait_for(&arrivals.second, 3),
            _ => {}
        }
    }
}
