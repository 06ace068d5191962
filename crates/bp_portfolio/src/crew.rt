//! The desks of several hotels, from what each is to run to their closed books.
ghost use Rattle.std.specs.Prelude.{◌≡◌, ℕ, ◌<◌, ◌≤◌, IfOk, Some, None, length, slice_index_or, All};
ghost use Rattle.bp_types.specs.declared.limits.TheConstants.{MOST_HOTELS, MOST_WORKERS};
ghost use Rattle.bp_desk_run.specs.RightRun.{Staged as StagedDesk};
ghost use Rattle.bp_portfolio.specs.Desks.{AreRightRuns};
ghost use Rattle.bp_portfolio.specs.Sites.{AreRunsOf, AreToRun, HasEnded, IsOver, IsToRun};
ghost use Rattle.bp_portfolio.specs.declared.crew.DeskSite.{DeskSite as DeskSiteValue};

use crate::desk::Staged;
use bp_desk_run::Ran;
use bp_edges::Gate;
use bp_types::Memory;
use std::alloc::Global;
use std::sync::Wait;
use std::thread::{self, Threads};

/// The desk of one hotel among several: what it is to run, until it runs, and then what came of it.
#[derive(Drop)]
pub struct DeskSite {
    /// What it is to run; None once it has run.
    pub staged: Option<Staged>,
    /// How many optimisers run beside its sessions.
    pub workers: u32,
    /// The hotel's index; the first hotel has 0.
    pub hotel: u32,
    /// What came of it; None before it has run.
    pub outcome: Option<Result<Ran, Memory>>,
}

impl DeskSite {
    /// Runs it.
    fn run<R: Wait + Threads + Sync, G: Gate>(&mut self, rt: &R, alloc: Global, gate: &G)
        requires { IsToRun self.old }
        ensures { (g : StagedDesk) → self.old.staged ≡ Some g → HasEnded self.old.workers g self.new }
    {
        let Some(staged) = self.staged.take() else {
            unreachable!()
        };
        self.outcome = Some(staged.run(rt, alloc, self.workers, self.hotel, gate));
    }
}

/// A desk for each hotel, the first hotel first.
fn sites_of(alloc: Global, hotels: Vec<Staged>, workers: u32) -> Result<Vec<DeskSite>, Memory>
    requires few { length hotels.items ≤ MOST_HOTELS }
    ensures { IfOk result (λ sites. AreToRun workers hotels.items sites.items) }
{
    let mut sites = Vec::new(alloc);
    let mut hotel: u32 = 0;
    for staged in hotels {
        sites.push(DeskSite {
            staged: Some(staged),
            workers,
            hotel,
            outcome: None,
        })?;
        hotel += 1;
    }
    Ok(sites)
}

/// Runs each desk once, each in a thread of its own where one can be made.
fn run_sites<R: Wait + Threads + Sync, G: Gate>(
    rt: &R,
    alloc: Global,
    sites: &mut [DeskSite],
    gate: &G,
)
    requires { All IsToRun sites.old }
    ensures count { length sites.new ≡ length sites.old }
    ensures each { (i : ℕ) (d : DeskSiteValue) (g : StagedDesk) → i < length sites.old →
        (slice_index_or sites.old i d).staged ≡ Some g
        → HasEnded (slice_index_or sites.old i d).workers g (slice_index_or sites.new i d) }
{
    let threads = sites.len();
    if threads == 0 {
        return;
    }
    thread::for_each_mut(
        rt,
        sites,
        threads,
        &|_: usize, site: &mut DeskSite|
            requires { IsToRun site.old }
            ensures { (g : StagedDesk) → site.old.staged ≡ Some g → HasEnded site.old.workers g site.new }
        { site.run(rt, alloc, gate) },
    );
}

/// What came of the desk of each hotel, where each has run.
fn runs_of(alloc: Global, sites: Vec<DeskSite>) -> Result<Vec<Ran>, Memory>
    requires { All IsOver sites.items }
    ensures { IfOk result (λ runs. AreRunsOf sites.items runs.items) }
{
    let mut runs = Vec::new(alloc);
    for site in sites {
        let DeskSite { outcome, .. } = site;
        let Some(outcome) = outcome else {
            unreachable!()
        };
        runs.push(outcome?)?;
    }
    Ok(runs)
}

/// Runs the desks of several hotels beside one another, each with so many optimisers, to their closed books, which come
/// in the hotels' order. The one error is `Memory`: of whichever desk.
///
/// Each hotel's book is right for its own house, sessions and workers; nothing of another hotel stands in what is said
/// of it. A caller of a hotel arrives at the gate with its number and `CALLERS` times the hotel's index, from 0, more.
pub fn run_desks<R: Wait + Threads + Sync, G: Gate>(
    rt: &R,
    alloc: Global,
    hotels: Vec<Staged>,
    workers: u32,
    gate: &G,
) -> Result<Vec<Ran>, Memory>
    requires few { length hotels.items ≤ MOST_HOTELS }
    requires workers { workers ≤ MOST_WORKERS }
    ensures { IfOk result (λ runs. AreRightRuns workers hotels.items runs.items) }
{
    let mut sites = sites_of(alloc, hotels, workers)?;
    run_sites(rt, alloc, &mut sites, gate);
    let runs = runs_of(alloc, sites)?;
    Ok(runs)
}
