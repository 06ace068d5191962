//! Sites that run beside one another.
ghost use Rattle.std.specs.Prelude.{◌≡◌, ℕ, ◌<◌, length, All, slice_index_or};
ghost use denote.Param.Send.{IsSync};

use std::sync::Wait;
use std::thread::{self, Threads};

/// A place at which something is to be done, once.
pub trait Site: Send {
    /// What it has to do, as clauses name it.
    type Job;

    /// What it has to do.
    ghost job: { Self → Self.Job };

    /// It is done.
    ghost is_done: { Self → Type 0 };

    /// Does it. It may start threads, and wait for them.
    fn run<R: Wait + Threads + Sync>(&mut self, rt: &R)
        requires sync { IsSync R.row }
        requires new { is_done self.old → ⊥ }
        ensures job { job self.new ≡ job self.old }
        ensures done { is_done self.new };
}

/// Runs each site once, each in a thread of its own where one can be made.
///
/// Afterwards each is done, and has what it had to do. Nothing of another site stands in what is said of one.
pub fn run_all<T: Site, R: Wait + Threads + Sync>(rt: &R, sites: &mut [T])
    requires { All (λ s. T.is_done s → ⊥) sites.old }
    ensures count { length sites.new ≡ length sites.old }
    ensures each { (i : ℕ) (d : T) → i < length sites.old
        → (T.job (slice_index_or sites.new i d) ≡ T.job (slice_index_or sites.old i d)) × T.is_done (slice_index_or sites.new i d) }
{
    let threads = sites.len();
    if threads == 0 {
        return;
    }
    thread::for_each_mut(
        rt,
        sites,
        threads,
        &|_place: usize, site: &mut T|
            requires sync { IsSync R.row }
            requires new { T.is_done site.now → ⊥ }
            ensures job { T.job site.exit.now ≡ T.job site.entry.now }
            ensures done { T.is_done site.exit.now }
        { site.run(rt) },
    );
}
