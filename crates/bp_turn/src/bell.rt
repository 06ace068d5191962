//! How threads that wait are put to sleep and woken.
use std::sync::Wait;
use std::sync::atomic::AtomicU64;
use std::sync::atomic::Ordering::SeqCst;

/// A bell that is rung only where some thread asked for it. Who wants to sleep asks first, looks once more whether it
/// has to wait, and sleeps then: a ring after that look wakes it, and a ring before it keeps it from falling asleep.
#[derive(Drop)]
pub struct Bell {
    /// How often it was asked for and rung. Odd: it was asked for since it was rung last.
    count: AtomicU64,
}

impl Bell {
    /// A bell for which nobody asks yet. It takes no memory.
    pub fn new() -> Bell {
        Bell {
            count: AtomicU64::new(0),
        }
    }

    /// Asks for the next ring, and answers what `sleep` is to be told. Where it is rung meanwhile, `sleep` returns at
    /// once.
    pub fn ask(&self) -> u64 {
        let count = self.count.load(SeqCst);
        let asked = count | 1;
        if count != asked {
            let _ = self.count.compare_exchange(count, asked, SeqCst, SeqCst);
        }
        asked
    }

    /// Sleeps until a ring, or not at all where it was rung since it was asked for.
    pub fn sleep<R: Wait>(&self, rt: &R, asked: u64) {
        self.count.park(rt, (asked & 0xffff_ffff) as u32);
    }

    /// Wakes one thread that sleeps, where one asked since the last ring.
    pub fn ring_for_one(&self) {
        if self.was_asked() {
            self.count.wake_one();
        }
    }

    /// Wakes all threads that sleep, where one asked since the last ring.
    pub fn ring_for_all(&self) {
        if self.was_asked() {
            self.count.wake_all();
        }
    }

    /// Whether this ring is the one that was asked for. The load comes first since it costs less, and mostly nobody
    /// asked.
    fn was_asked(&self) -> bool {
        let count = self.count.load(SeqCst);
        let rung = count.wrapping_add(1);
        count & 1 == 1
            && self
                .count
                .compare_exchange(count, rung, SeqCst, SeqCst)
                .is_ok()
    }
}
