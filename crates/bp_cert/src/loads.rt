//! The loads of all nights, from who arrives and who departs.
ghost use Rattle.std.specs.Prelude.{◌≡◌, ℕ, ◌<◌, length, slice_index};
ghost use Rattle.bp_types.specs.Program.{stay_at};
ghost use Rattle.bp_cert.specs.Verdicts.{NoneAbove};
ghost use Rattle.bp_cert.specs.Loads.{Counts, AreLoads, arriving, departing};

use bp_types::Instance;
use bp_types::limits::MOST_NODES;

/// The load of each night, in units.
#[derive(Clone, Copy)]
pub struct Loads {
    loads: [u64; MOST_NODES],
}

/// What is sold to guests who arrive on each night, and to guests who depart on its morning, in units.
#[derive(Clone, Copy)]
struct Moves {
    arrivals: [u64; MOST_NODES],
    departures: [u64; MOST_NODES],
}

impl Loads {
    /// The loads of an allocation that keeps to the forecasts: `sell` has one number per stay, in units. The load of a
    /// night is that of the night before, plus who arrives, less who departs: one pass over the stays, and one over the
    /// nights.
    pub fn of(instance: &Instance, sell: &[u64]) -> Loads
        requires one_each { length sell.now ≡ length instance.now.stays }
        requires within { NoneAbove (λ j. (stay_at instance.now j).forecast) (slice_index sell.now)
            (length instance.now.stays) }
        ensures { AreLoads instance.now sell.now result.loads }
    {
        let moves = Moves::of(instance, sell);
        let mut loads = [0; MOST_NODES];
        let mut load: u64 = 0;
        for night in 0..instance.nights() {
            let place = night as usize;
            load = load + moves.arrivals[place] - moves.departures[place];
            loads[place] = load;
        }
        Loads { loads }
    }

    /// The load of one night, in units.
    pub fn on(&self, night: u32) -> u64
        requires { night < MOST_NODES }
        ensures { result ≡ slice_index self.now.loads night }
    {
        self.loads[night as usize]
    }
}

impl Moves {
    /// Both, from one pass over the stays.
    fn of(instance: &Instance, sell: &[u64]) -> Moves
        requires one_each { length sell.now ≡ length instance.now.stays }
        requires within { NoneAbove (λ j. (stay_at instance.now j).forecast) (slice_index sell.now)
            (length instance.now.stays) }
        ensures arrivals { Counts (arriving instance.now sell.now) result.arrivals }
        ensures departures { Counts (departing instance.now sell.now) result.departures }
    {
        let mut arrivals = [0; MOST_NODES];
        let mut departures = [0; MOST_NODES];
        for stay in 0..instance.stays() {
            let span = instance.stay(stay).span;
            let sold = sell[stay as usize];
            arrivals[span.from as usize] += sold;
            departures[span.to as usize] += sold;
        }
        Moves {
            arrivals,
            departures,
        }
    }
}
