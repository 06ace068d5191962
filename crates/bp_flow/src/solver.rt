//! The solver: a flow, the memory of its searches, and what it tells.
ghost use Rattle.std.specs.Prelude.{
  ◌≡◌,
  ◌≢◌,
  ℕ,
  ◌+◌,
  ◌-◌,
  ◌*◌,
  ◌<◌,
  ◌≤◌,
  true,
  false,
  length,
  slice_index,
  All,
  IfOk,
  IsTrue,
};
ghost use Rattle.bp_types.specs.declared.change.Change.TheVariants.{Rooms, Demand, Rate};
ghost use Rattle.bp_types.specs.Claim.{IsCertificateOf, IsLeastCertificate};
ghost use Rattle.bp_types.specs.Optimum.{IsOptimum, AreLeastPrices};
ghost use Rattle.bp_types.specs.Program.{stay_at};
ghost use Rattle.bp_types.specs.Changes.{changed, Fits};
ghost use Rattle.bp_residual.specs.Network.{Priced, greatest_rate, nodes};
ghost use Rattle.bp_flow.specs.Solving.{Solving, priced};
ghost use Rattle.bp_flow.specs.Rates.{StandsAtRate};
ghost use Rattle.bp_flow.specs.Solvers.{
  ColdSoFar,
  IsSolvedFlow,
  IsSolved,
  IsSolverOf,
  CountsSearches,
  CountsServed,
  CountsUpTo,
  difference,
  lack_at,
};
ghost use Rattle.bp_flow.specs.Rising.{repairs, rises, searches_from_nothing};
ghost use Rattle.bp_flow.specs.Settled.{IsSettled, IsSolvable};

use crate::demand::{book_sold, reforecast};
use crate::guess::keep_ways;
use crate::law;
use crate::moves::shift;
use crate::repairs::lacking_at;
use crate::rooms::{add_rooms, take_rooms};
use crate::settling::settle_flow;
use crate::shortage::{Shortage, shortage_at};
use crate::standing::stands_at_rate;
use crate::start::started;
use bp_paths::Scratch;
use bp_residual::Flow;
use bp_simplex::Simplex;
use bp_types::{Certificate, Instance, Memory, Span, Steps};
use std::alloc::Global;
use std::marker::Model;
use std::sync::ledger::Ledger;

/// A flow that carries exactly the rooms, without negative reduced costs, and the memory of its searches.
///
/// Contracts see the flow with its potentials, and how many searches were made; the instance that is solved is the
/// program of that flow.
///
/// A change makes at most as many searches as it moves units: the units of `raise` and `lower`, however long the span
/// is, the difference of the forecasts of `demand`, and twice the forecast of `reprice`. A call takes memory only where
/// it is given an allocator.
#[derive(Drop)]
pub struct Solver {
    flow: Flow,
    scratch: Scratch,
}

impl Model for Solver {
    ghost use Rattle.std.specs.Prelude.{◌≡◌, length};
    ghost use Rattle.bp_residual.specs.Network.{nodes};
    ghost use Rattle.bp_flow.specs.Solving.{Solving};
    ghost use Rattle.bp_flow.specs.Solvers.{IsSolvedFlow};

    ghost Value = { Solving };

    ghost view = { λ a. record { flow = a.flow.flow; potentials = a.flow.potentials; served = a.scratch.served } };

    ghost invariant = { λ a. IsSolvedFlow a.flow × (length a.scratch.distances ≡ nodes a.flow) };
}

impl Solver {
    /// Solves an instance from nothing. The steps rise by the searches that its scratch served. The one error is
    /// `Memory`.
    ///
    /// It begins with what a network simplex found, as far as that is a flow that carries rooms of its own without
    /// negative reduced costs, and leads those rooms to the instance's. Each search brings at least one unit to all
    /// the nights that lack it, up to the first that lacks none, or takes one from all that have it too many; and no
    /// start is taken that needs more than the one without rooms. So there is one search at most for each unit by
    /// which the rooms rise from a night to the next, and the last one for the prices.
    pub fn cold<L: Ledger>(
        alloc: Global,
        instance: &Instance,
        steps: &mut Steps<L>,
    ) -> Result<Solver, Memory>
        ensures solver { IfOk result (IsSolverOf instance.now) }
        ensures solvable { IfOk result (λ _. IsSolvable instance.now) }
        ensures counted { IfOk result (λ s. CountsServed steps.old steps.new 0 s.served) }
        ensures few { CountsUpTo steps.old steps.new (searches_from_nothing instance.now) }
    {
        let mut simplex = Simplex::new(alloc, instance)?;
        simplex.run();
        Solver::cold_from(alloc, instance, &simplex, steps)
    }

    /// The same, beginning with what a network simplex holds, wherever it was cut off and whatever instance it is of:
    /// nothing rests on it but time.
    pub fn cold_from<L: Ledger>(
        alloc: Global,
        instance: &Instance,
        simplex: &Simplex,
        steps: &mut Steps<L>,
    ) -> Result<Solver, Memory>
        ensures solver { IfOk result (IsSolverOf instance.now) }
        ensures solvable { IfOk result (λ _. IsSolvable instance.now) }
        ensures counted { IfOk result (λ s. CountsServed steps.old steps.new 0 s.served) }
        ensures few { CountsUpTo steps.old steps.new (searches_from_nothing instance.now) }
    {
        let mut solver = Solver::start(alloc, instance, simplex)?;
        for night in 0..instance.nights() {
            solver.fill(instance, night, steps);
        }
        solver.settle(steps);
        Ok(solver)
    }

    /// A solver on the stays of the instance, with rooms of its own, and with the ways that the simplex found.
    fn start(alloc: Global, instance: &Instance, simplex: &Simplex) -> Result<Solver, Memory>
        ensures so_far { IfOk result (λ s. ColdSoFar instance.now 0 (priced s)) }
        ensures few { IfOk result (λ s. repairs s.flow.program.rooms instance.now.rooms ≤ rises instance.now.rooms) }
        ensures served { IfOk result (λ s. s.served ≡ 0) }
    {
        let flow = started(alloc, instance, simplex)?;
        let mut start = Solver::on(alloc, flow)?;
        keep_ways(simplex, instance.nights(), &mut start.scratch);
        Ok(start)
    }

    /// A solver on a flow, with memory for its searches.
    fn on(alloc: Global, flow: Flow) -> Result<Solver, Memory>
        requires { IsSolvedFlow flow }
        ensures same { IfOk result (λ s. priced s ≡ flow) }
        ensures served { IfOk result (λ s. s.served ≡ 0) }
    {
        let nodes = flow.nights() + 1;
        let scratch = Scratch::new(alloc, nodes, flow.arcs())?;
        Ok(Solver { flow, scratch })
    }

    /// Leads the rooms of a night to those of the instance, together with nights behind it that lack some too, or
    /// have too many: units that cross many nights at once take fewer searches than night by night.
    fn fill<L: Ledger>(&mut self, instance: &Instance, night: u32, steps: &mut Steps<L>)
        requires so_far { ColdSoFar instance.now night (priced self.old) }
        requires in_range { night < length instance.now.rooms }
        ensures so_far { ColdSoFar instance.now (night + 1) (priced self.new) }
        ensures falls { repairs self.new.flow.program.rooms instance.now.rooms ≤ repairs self.old.flow.program.rooms
            instance.now.rooms }
        ensures counted { CountsSearches steps.old steps.new self.old.served self.new.served
            (repairs self.old.flow.program.rooms instance.now.rooms - repairs self.new.flow.program.rooms
            instance.now.rooms) }
    {
        while self.rooms(night) != instance.rooms(night) {
            self.fill_shortage(instance, night, steps);
        }
    }

    /// Moves the units of a shortage that begins at the night.
    fn fill_shortage<L: Ledger>(&mut self, instance: &Instance, night: u32, steps: &mut Steps<L>)
        requires so_far { ColdSoFar instance.now night (priced self.old) }
        requires in_range { night < length instance.now.rooms }
        requires unlike { slice_index self.old.flow.program.rooms night ≢ slice_index instance.now.rooms night }
        ensures so_far { ColdSoFar instance.now night (priced self.new) }
        ensures nearer { difference (slice_index self.new.flow.program.rooms night)
            (slice_index instance.now.rooms night) < difference (slice_index self.old.flow.program.rooms night)
            (slice_index instance.now.rooms night) }
        ensures falls { repairs self.new.flow.program.rooms instance.now.rooms ≤ repairs self.old.flow.program.rooms
            instance.now.rooms }
        ensures counted { CountsSearches steps.old steps.new self.old.served self.new.served
            (repairs self.old.flow.program.rooms instance.now.rooms - repairs self.new.flow.program.rooms
            instance.now.rooms) }
    {
        let up = self.rooms(night) < instance.rooms(night);
        let Shortage { to, units } = shortage_at(self, instance, up, night);
        self.move_rooms(Span { from: night, to }, up, units, steps);
    }

    /// How many rooms a night lacks of the instance's, or (not `up`) has too many.
    pub(crate) fn lacking(&self, instance: &Instance, up: bool, night: u32) -> u64
        requires each { length self.now.flow.program.rooms ≡ length instance.now.rooms }
        requires in_range { night < length instance.now.rooms }
        ensures { result ≡ lack_at up self.now.flow.program.rooms instance.now.rooms night }
    {
        lacking_at(&self.flow, instance, up, night)
    }

    /// Adds (`up`) or takes away so many units on each night of a span.
    fn move_rooms<L: Ledger>(&mut self, span: Span, up: bool, units: u64, steps: &mut Steps<L>)
        requires { Fits self.old.flow.program (Rooms span up units) }
        ensures program { self.new.flow.program ≡ changed self.old.flow.program (Rooms span up units) }
        ensures solved { IsSolved self.new }
        ensures counted { CountsSearches steps.old steps.new self.old.served self.new.served units }
    {
        if up {
            self.raise(span, units, steps);
        } else {
            self.lower(span, units, steps);
        }
    }

    /// A copy, which goes its own way from here on, and has made no search. It takes the kept ways along. The one error
    /// is `Memory`.
    pub fn copy(&self, alloc: Global) -> Result<Solver, Memory>
        ensures same { IfOk result (λ s. priced s ≡ priced self.now) }
        ensures served { IfOk result (λ s. s.served ≡ 0) }
    {
        let mut copy = Solver::on(alloc, self.flow.copy(alloc)?)?;
        copy.scratch.keep_ways_of(&self.scratch);
        Ok(copy)
    }

    /// Makes it the same solver as another one, without taking memory, where they have as many nights, and stays of the
    /// same spans in the same order: the same instance and flow, the same prices, whether settled or not, and as many
    /// searches. It takes the other's kept ways along. Answers whether they have; else nothing changes. It takes the
    /// time of a look at each stay and night.
    pub fn set_to(&mut self, other: &Solver) -> bool
        ensures set { IsTrue result → self.new ≡ other.now }
        ensures not_set { result ≡ false → self.new ≡ self.old }
    {
        if !self.flow.set_to(&other.flow) {
            return false;
        }
        self.scratch.go_on_as(&other.scratch);
        true
    }

    /// Adds so many units on each night of a span.
    pub fn raise<L: Ledger>(&mut self, span: Span, units: u64, steps: &mut Steps<L>)
        requires { Fits self.old.flow.program (Rooms span true units) }
        ensures program { self.new.flow.program ≡ changed self.old.flow.program (Rooms span true units) }
        ensures solved { IsSolved self.new }
        ensures solvable { IsSolvable self.new.flow.program }
        ensures counted { CountsSearches steps.old steps.new self.old.served self.new.served units }
    {
        law::solved_programs_are_solvable();
        let Span { from, to } = span;
        let _nights = self.flow.nights();
        add_rooms(&mut self.flow, span, units);
        shift(&mut self.flow, &mut self.scratch, from, to, units, steps);
        let _nights = self.flow.nights();
    }

    /// Takes so many units away on each night of a span.
    pub fn lower<L: Ledger>(&mut self, span: Span, units: u64, steps: &mut Steps<L>)
        requires { Fits self.old.flow.program (Rooms span false units) }
        ensures program { self.new.flow.program ≡ changed self.old.flow.program (Rooms span false units) }
        ensures solved { IsSolved self.new }
        ensures solvable { IsSolvable self.new.flow.program }
        ensures counted { CountsSearches steps.old steps.new self.old.served self.new.served units }
    {
        law::solved_programs_are_solvable();
        let Span { from, to } = span;
        let _nights = self.flow.nights();
        take_rooms(&mut self.flow, span, units);
        shift(&mut self.flow, &mut self.scratch, to, from, units, steps);
        let _nights = self.flow.nights();
    }

    /// Sets the forecast of a stay, in units.
    pub fn demand<L: Ledger>(&mut self, stay: u32, value: u64, steps: &mut Steps<L>)
        requires { Fits self.old.flow.program (Demand stay value) }
        ensures program { self.new.flow.program ≡ changed self.old.flow.program (Demand stay value) }
        ensures solved { IsSolved self.new }
        ensures solvable { IsSolvable self.new.flow.program }
        ensures counted { CountsSearches steps.old steps.new self.old.served self.new.served
            (difference (stay_at self.old.flow.program stay).forecast value) }
    {
        law::solved_programs_are_solvable();
        reforecast(&mut self.flow, &mut self.scratch, stay, value, steps);
        let _nights = self.flow.nights();
    }

    /// Takes units from the rooms of a span and sets the forecast of a stay, where that is a booking of a stay that is
    /// sold: as many units less of the stay on its own span. Then no unit moves, so it makes no search. Answers whether
    /// it was one; else nothing changes.
    pub fn book(&mut self, span: Span, units: u64, stay: u32, value: u64) -> bool
        requires rooms { Fits self.old.flow.program (Rooms span false units) }
        requires stay { stay < length self.old.flow.program.stays }
        ensures made { IsTrue result →
            self.new.flow.program ≡
            changed (changed self.old.flow.program (Rooms span false units)) (Demand stay value) }
        ensures not_made { result ≡ false → self.new ≡ self.old }
        ensures solved { IsSolved self.new }
        ensures solvable { IsSolvable self.new.flow.program }
        ensures served { self.new.served ≡ self.old.served }
    {
        law::solved_programs_are_solvable();
        let _nights = self.flow.nights();
        let terms = self.flow.stay(stay);
        if terms.span != span
            || self.flow.sold(stay) < units
            || terms.forecast.saturating_sub(units) != value
        {
            return false;
        }
        book_sold(&mut self.flow, span, stay, units, terms.forecast);
        let _nights = self.flow.nights();
        true
    }

    /// Sets the rate of a stay, in minor units of money. Where what is sold of it is right at that rate too, no unit
    /// moves.
    pub fn reprice<L: Ledger>(&mut self, stay: u32, value: u64, steps: &mut Steps<L>)
        requires { Fits self.old.flow.program (Rate stay value) }
        ensures program { self.new.flow.program ≡ changed self.old.flow.program (Rate stay value) }
        ensures solved { IsSolved self.new }
        ensures solvable { IsSolvable self.new.flow.program }
        ensures counted { CountsSearches steps.old steps.new self.old.served self.new.served
            (2 * (stay_at self.old.flow.program stay).forecast) }
    {
        law::solved_programs_are_solvable();
        let _nights = self.flow.nights();
        if stands_at_rate(&self.flow, stay, value) {
            self.set_rate(stay, value);
        } else {
            self.sell_anew(stay, value, steps);
        }
    }

    /// Sets the rate of a stay: takes back all that is sold of it, and sells it at the new rate.
    fn sell_anew<L: Ledger>(&mut self, stay: u32, value: u64, steps: &mut Steps<L>)
        requires { Fits self.old.flow.program (Rate stay value) }
        ensures program { self.new.flow.program ≡ changed self.old.flow.program (Rate stay value) }
        ensures solved { IsSolved self.new }
        ensures counted { CountsSearches steps.old steps.new self.old.served self.new.served
            (2 * (stay_at self.old.flow.program stay).forecast) }
    {
        let _nights = self.flow.nights();
        let forecast = self.flow.stay(stay).forecast;
        self.demand(stay, 0, steps);
        self.set_rate(stay, value);
        self.demand(stay, forecast, steps);
    }

    /// Sets the rate of a stay of which as many are sold as that rate asks for too.
    fn set_rate(&mut self, stay: u32, value: u64)
        requires fits { Fits self.old.flow.program (Rate stay value) }
        requires stands { StandsAtRate (priced self.old) stay value }
        ensures program { self.new.flow.program ≡ changed self.old.flow.program (Rate stay value) }
        ensures solved { IsSolved self.new }
        ensures served { self.new.served ≡ self.old.served }
    {
        self.flow.set_rate(stay, value);
        let _nights = self.flow.nights();
    }

    /// Makes the prices the least optimal ones. Where the kept ways still lead each node to the last one at no cost
    /// they are, which takes a look at each node and no search; else it takes one search.
    pub fn settle<L: Ledger>(&mut self, steps: &mut Steps<L>)
        ensures flow { self.new.flow ≡ self.old.flow }
        ensures settled { IsSettled self.new }
        ensures solved { IsSolved self.new }
        ensures solvable { IsSolvable self.new.flow.program }
        ensures counted { CountsSearches steps.old steps.new self.old.served self.new.served 1 }
    {
        law::solved_programs_are_solvable();
        settle_flow(&mut self.flow, &mut self.scratch, steps);
        let _nights = self.flow.nights();
    }

    /// The optimum of the instance, in minor units of money times the unit. It takes no memory, and the time of the
    /// stays.
    pub fn value(&self) -> u128
        ensures { IsOptimum self.now.flow.program result }
    {
        bp_types::law::certificate_is_optimal();
        self.flow.worth()
    }

    /// The allocation, the prices, and the revenue as the value of both: a certificate of the instance. From a settled
    /// solver its prices are the least ones. The one error is `Memory`.
    pub fn certificate(&self, alloc: Global) -> Result<Certificate, Memory>
        ensures certifies { IfOk result (IsCertificateOf self.now.flow.program) }
        ensures least { IfOk result (λ c. IsSettled self.now → IsLeastCertificate self.now.flow.program c) }
        ensures within_rates { IfOk result (λ c. IsSettled self.now →
            All (λ x. x ≤ greatest_rate self.now.flow.program) c.prices) }
        ensures sold { IfOk result (λ c. c.sell ≡ self.now.flow.sell) }
    {
        bp_types::law::certificate_is_optimal();
        let certificate = self.flow.certificate(alloc)?;
        Ok(certificate)
    }

    /// The bid price of each night, in minor units of money: once settled, the least optimal ones. The one error is
    /// `Memory`.
    pub fn prices(&self, alloc: Global) -> Result<Vec<u64>, Memory>
        ensures { IfOk result (λ v. IsSettled self.now → AreLeastPrices self.now.flow.program v.items) }
    {
        self.flow.prices(alloc)
    }

    /// How many nights there are.
    pub fn nights(&self) -> u32
        ensures value { result ≡ length self.now.flow.program.rooms }
        ensures solved { IsSolved self.now }
    {
        self.flow.nights()
    }

    /// How many stays there are.
    pub fn stays(&self) -> u32
        ensures { result ≡ length self.now.flow.program.stays }
    {
        self.flow.stays()
    }

    /// The rooms of a night, in units.
    pub fn rooms(&self, night: u32) -> u64
        requires { night < length self.now.flow.program.rooms }
        ensures { result ≡ slice_index self.now.flow.program.rooms night }
    {
        self.flow.rooms(night)
    }
}
