//! A flow on the interval network, with a potential for each node: what is read of it, pushed over it and set in it.
ghost use Rattle.std.specs.Prelude.{
  ◌≡◌,
  ℕ,
  ◌+◌,
  ◌-◌,
  ◌*◌,
  ◌^◌,
  ◌<◌,
  ◌≤◌,
  length,
  slice_index,
  slice_set,
  IfOk,
  IfSome,
  IsTrue,
  MatchOption,
  false,
  ◌↔◌,
  if◌then◌else◌,
  All,
  map,
  neg_ℤ,
  pos,
};
ghost use Rattle.bp_residual.specs.Network.{
  Priced,
  IsPriced,
  IsLifted,
  step_of,
  steps_of,
  arcs,
  tail,
  head,
  Admits,
  IsCost,
  IsFreeStep,
  prices_of,
  IsEmptyFlowOf,
  greatest_rate,
  forward_step,
  capacity,
  carried_by,
  gain,
  with_program,
  with_rooms,
  with_sold,
  room_of,
  IsSlack,
  pushed,
  sell_more,
  sell_less,
  spare_more,
  spare_less,
  greatest_spare,
  FitsSpare,
  Takes,
  NamesArcsOnce,
  pushed_along,
};
ghost use Rattle.bp_residual.specs.Index.{AreHopsAt};
ghost use Rattle.bp_types.specs.Program.{worth, stay_at};
ghost use Rattle.std.specs.List.{range_with_len};
ghost use Rattle.bp_types.specs.declared.limits.TheConstants.{MOST_UNITS, MOST_RATE, MOST_FORECAST};
ghost use Rattle.bp_types.specs.Changes.{changed, Fits};
ghost use Rattle.bp_types.specs.declared.change.Change.TheVariants.{Rooms, Demand, Rate};

use crate::alike::{is_alike, set_instance};
use crate::lift::{level_potentials, lift_potentials};
use crate::network::Network;
use crate::rooms::{clear_rooms, set_rooms};
use crate::{ArcView, Hop};
use bp_types::{Certificate, Change, Instance, Memory, Span, Stay};
use std::alloc::Global;
use std::marker::Model;

/// A flow on the interval network, with a potential for each node.
///
/// Contracts see the instance, the units of each stay that are sold, the units of each night that are spare, and the
/// potentials, in minor units of money.
#[derive(Drop)]
pub struct Flow {
    /// The instance whose network it is on.
    instance: Instance,
    /// What the arcs carry: the units of each stay that are sold, and the units of each night that nobody takes.
    sell: Vec<u64>,
    spare: Vec<u64>,
    /// The sum of the prices from each node's night to the last one.
    potentials: Vec<u64>,
    /// The hops of each node; no change of the instance moves them.
    network: Network,
}

impl Model for Flow {
    ghost use Rattle.bp_residual.specs.Network.{Priced, IsPriced};
    ghost use Rattle.bp_residual.specs.Index.{AreEnds};

    ghost Value = { Priced };

    ghost view = { λ a. record { flow = record { program = a.instance; sell = a.sell.items; spare = a.spare.items }; potentials = a.potentials.items } };

    ghost invariant = { λ a. IsPriced
        (record {
          flow = record { program = a.instance; sell = a.sell.items; spare = a.spare.items };
          potentials =
              a.potentials.items;
        }) × AreEnds a.instance a.network };
}

/// The price of each night.
fn prices(alloc: Global, potentials: &[u64]) -> Result<Vec<u64>, Memory>
    requires some { 0 < length potentials.now }
    requires falls { (n : ℕ) → n < length potentials.now - 1 →
        slice_index potentials.now (n + 1) ≤ slice_index potentials.now n }
    ensures { IfOk result (λ v. v.items ≡
        map (λ n. slice_index potentials.now n - slice_index potentials.now (n + 1))
        (range_with_len 0 (length potentials.now - 1))) }
{
    let mut prices = Vec::new(alloc);
    for night in 0..potentials.len() - 1 {
        prices.push(potentials[night] - potentials[night + 1])?;
    }
    Ok(prices)
}

/// The greatest rate of a stay; 0 without stays.
fn greatest_rate(instance: &Instance) -> u64
    ensures greatest { result ≡ greatest_rate instance.now }
    ensures dear { (j : ℕ) → j < length instance.now.stays → (stay_at instance.now j).rate ≤ result }
    ensures limit { result ≤ MOST_RATE }
{
    let mut greatest = 0;
    for stay in 0..instance.stays() {
        greatest = greatest.max(instance.stay(stay).rate);
    }
    greatest
}

impl Flow {
    /// The flow that carries nothing, on the instance without rooms; each price is the greatest rate. It takes the time
    /// of the nodes and arcs; the one error is `Memory`.
    pub fn empty(alloc: Global, mut instance: Instance) -> Result<Flow, Memory>
        ensures { IfOk result (IsEmptyFlowOf instance) }
    {
        clear_rooms(&mut instance);
        let price = greatest_rate(&instance);
        let nights = instance.nights() as usize;
        let sell = vec![in alloc; 0u64; instance.stays() as usize]?;
        let spare = vec![in alloc; 0u64; nights]?;
        let mut potentials = vec![in alloc; 0u64; nights + 1]?;
        let network = Network::of(alloc, &instance)?;
        level_potentials(&mut potentials, price);
        Ok(Flow {
            instance,
            sell,
            spare,
            potentials,
            network,
        })
    }

    /// A copy, the same in every value. It takes the time of the nodes and arcs; the one error is `Memory`.
    pub fn copy(&self, alloc: Global) -> Result<Flow, Memory>
        ensures { IfOk result (λ f. f ≡ self.now) }
    {
        let instance = self.instance.copy(alloc)?;
        let sell = Vec::from_slice(alloc, &self.sell)?;
        let spare = Vec::from_slice(alloc, &self.spare)?;
        let potentials = Vec::from_slice(alloc, &self.potentials)?;
        let network = self.network.copy(alloc)?;
        Ok(Flow {
            instance,
            sell,
            spare,
            potentials,
            network,
        })
    }

    /// Makes it the same in every value as another flow, without taking memory, where their instances have as many
    /// nights, and stays of the same spans in the same order. Answers whether they have; else nothing changes. It takes
    /// the time of a look at each stay and night.
    pub fn set_to(&mut self, other: &Flow) -> bool
        ensures set { IsTrue result → self.new ≡ other.now }
        ensures not_set { result ≡ false → self.new ≡ self.old }
        ensures nights { length self.new.flow.program.rooms ≡ length self.old.flow.program.rooms }
    {
        if !is_alike(&self.instance, &other.instance) {
            return false;
        }
        set_instance(&mut self.instance, &other.instance);
        self.sell.copy_from_slice(&other.sell);
        self.spare.copy_from_slice(&other.spare);
        self.potentials.copy_from_slice(&other.potentials);
        true
    }

    /// How many nights there are.
    pub fn nights(&self) -> u32
        ensures value { result ≡ length self.now.flow.program.rooms }
        ensures priced { IsPriced self.now }
    {
        self.instance.nights()
    }

    /// How many stays there are.
    pub fn stays(&self) -> u32
        ensures { result ≡ length self.now.flow.program.stays }
    {
        self.instance.stays()
    }

    /// How many arcs there are: the stays, and a free arc for each night.
    pub fn arcs(&self) -> u32
        ensures { result ≡ arcs self.now.flow.program }
    {
        self.instance.stays() + self.instance.nights()
    }

    /// The hops that leave a node, with room or without.
    pub fn hops_at(&self, node: u32) -> &[Hop]
        requires { node ≤ length self.now.flow.program.rooms }
        ensures { AreHopsAt self.now.flow.program node result.now }
    {
        self.network.hops_at(node)
    }

    /// An arc by its number, with what it carries.
    pub fn arc(&self, arc: u32) -> ArcView
        requires { arc < arcs self.now.flow.program }
        ensures tail { result.tail ≡ tail self.now.flow.program (forward_step self.now.flow.program arc) }
        ensures head { result.head ≡ head self.now.flow.program (forward_step self.now.flow.program arc) }
        ensures cost { result.cost ≡ neg_ℤ (pos (gain self.now.flow.program (forward_step self.now.flow.program arc))) }
        ensures room { result.room ≡ capacity self.now.flow.program arc }
        ensures flow { result.flow ≡ carried_by self.now.flow (forward_step self.now.flow.program arc) }
    {
        let stays = self.instance.stays();
        if arc < stays {
            let terms = self.stay(arc);
            ArcView {
                tail: terms.span.from,
                head: terms.span.to,
                cost: -(terms.rate as i64),
                room: Some(terms.forecast),
                flow: self.sold(arc),
            }
        } else {
            let night = arc - stays;
            ArcView {
                tail: night,
                head: night + 1,
                cost: 0,
                room: None,
                flow: self.spare[night as usize],
            }
        }
    }

    /// The potential of a node, in minor units of money: the sum of the prices from its night to the last one.
    pub fn potential(&self, node: u32) -> i128
        requires { node ≤ length self.now.flow.program.rooms }
        ensures { result ≡ pos (slice_index self.now.potentials node) }
    {
        i128::from(self.level(node))
    }

    /// The potential of a node as a number that is never negative, in minor units of money.
    pub fn level(&self, node: u32) -> u64
        requires { node ≤ length self.now.flow.program.rooms }
        ensures { result ≡ slice_index self.now.potentials node }
    {
        self.potentials[node as usize]
    }

    /// A stay by its number, from 0.
    pub fn stay(&self, stay: u32) -> Stay
        requires { stay < length self.now.flow.program.stays }
        ensures value { result ≡ stay_at self.now.flow.program stay }
        ensures span { (result.span.from < result.span.to) × (result.span.to ≤ length self.now.flow.program.rooms) }
    {
        self.instance.stay(stay)
    }

    /// How many units of a stay are sold.
    pub fn sold(&self, stay: u32) -> u64
        requires { stay < length self.now.flow.program.stays }
        ensures { result ≡ slice_index self.now.flow.sell stay }
    {
        self.sell[stay as usize]
    }

    /// The spare rooms of a night, in units.
    pub fn spare(&self, night: u32) -> u64
        requires { night < length self.now.flow.program.rooms }
        ensures { result ≡ slice_index self.now.flow.spare night }
    {
        self.spare[night as usize]
    }

    /// The node that the hop leaves.
    pub fn tail(&self, hop: Hop) -> u32
        requires { hop.arc < arcs self.now.flow.program }
        ensures { result ≡ tail self.now.flow.program (step_of self.now.flow.program hop) }
    {
        let stays = self.instance.stays();
        if hop.arc < stays {
            let span = self.instance.stay(hop.arc).span;
            if hop.forward { span.from } else { span.to }
        } else {
            let night = hop.arc - stays;
            if hop.forward { night } else { night + 1 }
        }
    }

    /// The node that the hop reaches.
    pub fn head(&self, hop: Hop) -> u32
        requires { hop.arc < arcs self.now.flow.program }
        ensures { result ≡ head self.now.flow.program (step_of self.now.flow.program hop) }
    {
        let stays = self.instance.stays();
        if hop.arc < stays {
            let span = self.instance.stay(hop.arc).span;
            if hop.forward { span.to } else { span.from }
        } else {
            let night = hop.arc - stays;
            if hop.forward { night + 1 } else { night }
        }
    }

    /// The reduced cost of a stay's hop that has room for a unit. It is the distance of two numbers either way, so that
    /// no branch is taken for it: whether there is room is as good as drawn by lot, and a wrong guess of the processor
    /// takes longer than all the rest.
    fn stay_cost(&self, stay: u32, forward: bool) -> Option<u128>
        requires in_range { stay < length self.now.flow.program.stays }
        requires slack { IsSlack self.now.flow (slice_index self.now.potentials) }
        ensures cost { IsCost self.now (if forward then sell_more stay else sell_less stay) result }
        ensures fits { IfSome result (λ c. c < 2 ^ 65) }
    {
        let terms = self.stay(stay);
        let sold = self.sold(stay);
        let left = u128::from(self.level(terms.span.from));
        let right = u128::from(self.level(terms.span.to)) + u128::from(terms.rate);
        let cost = left.max(right) - left.min(right);
        if forward {
            if sold < terms.forecast {
                Some(cost)
            } else {
                None
            }
        } else {
            if sold > 0 { Some(cost) } else { None }
        }
    }

    /// The reduced cost of a night's hop that has room for a unit; None where it has none.
    fn night_cost(&self, night: u32, forward: bool) -> Option<u128>
        requires in_range { night < length self.now.flow.program.rooms }
        requires slack { IsSlack self.now.flow (slice_index self.now.potentials) }
        ensures cost { IsCost self.now (if forward then spare_more night else spare_less night) result }
        ensures fits { IfSome result (λ c. c < 2 ^ 65) }
    {
        let from = self.potentials[night as usize];
        let to = self.potentials[night as usize + 1];
        if forward {
            Some(u128::from(from - to))
        } else {
            if self.spare[night as usize] > 0 {
                Some(0)
            } else {
                None
            }
        }
    }

    /// The ends of a stay's hop, if it has room for a unit and reduced cost 0.
    fn stay_way(&self, stay: u32, forward: bool) -> Option<(u32, u32)>
        requires { stay < length self.now.flow.program.stays }
        ensures { IfSome result (λ e. IsFreeStep self.now (if forward then sell_more stay else sell_less stay) e.0 e.1) }
    {
        let terms = self.stay(stay);
        let sold = self.sold(stay);
        let Span { from, to } = terms.span;
        let left = self.level(from);
        let right = self.level(to).saturating_add(terms.rate);
        if left != right || left == u64::MAX {
            return None;
        }
        if forward {
            if terms.forecast > sold {
                return Some((from, to));
            }
        } else {
            if sold > 0 {
                return Some((to, from));
            }
        }
        None
    }

    /// The ends of a night's hop, if it has room for a unit and reduced cost 0.
    fn night_way(&self, night: u32, forward: bool) -> Option<(u32, u32)>
        requires { night < length self.now.flow.program.rooms }
        ensures { IfSome result (λ e. IsFreeStep self.now (if forward then spare_more night else spare_less night)
            e.0 e.1) }
    {
        let place = night as usize;
        if self.potentials[place] != self.potentials[place + 1] {
            return None;
        }
        if forward {
            return Some((night, night + 1));
        }
        if self.spare[place] > 0 {
            return Some((night + 1, night));
        }
        None
    }

    /// The node that a hop leaves and the one that it reaches, if it has room for a unit and reduced cost 0. It says in
    /// one look what `room`, `reduced_cost`, `tail` and `head` say in four.
    pub fn free_way(&self, hop: Hop) -> Option<(u32, u32)>
        requires { hop.arc < arcs self.now.flow.program }
        ensures { IfSome result (λ e. IsFreeStep self.now (step_of self.now.flow.program hop) e.0 e.1) }
    {
        let stays = self.instance.stays();
        if hop.arc < stays {
            self.stay_way(hop.arc, hop.forward)
        } else {
            self.night_way(hop.arc - stays, hop.forward)
        }
    }

    /// The reduced cost of a hop that has room for a unit, in minor units of money: its cost, plus the potential of its
    /// tail, minus that of its head. None where it has no room.
    pub fn reduced_cost(&self, hop: Hop) -> Option<u128>
        requires in_range { hop.arc < arcs self.now.flow.program }
        requires slack { IsSlack self.now.flow (slice_index self.now.potentials) }
        ensures cost { IsCost self.now (step_of self.now.flow.program hop) result }
        ensures fits { IfSome result (λ c. c < 2 ^ 65) }
    {
        let stays = self.instance.stays();
        if hop.arc < stays {
            self.stay_cost(hop.arc, hop.forward)
        } else {
            self.night_cost(hop.arc - stays, hop.forward)
        }
    }

    /// Sends units over a stay's hop.
    fn push_stay(&mut self, stay: u32, forward: bool, units: u64)
        requires admits { Admits self.old.flow (if forward then sell_more stay else sell_less stay) units }
        ensures flow { self.new.flow ≡ pushed self.old.flow (if forward then sell_more stay else sell_less stay) units }
        ensures potentials { self.new.potentials ≡ self.old.potentials }
    {
        let place = stay as usize;
        if forward {
            self.sell[place] += units;
        } else {
            self.sell[place] -= units;
        }
    }

    /// Sends units over a night's hop.
    fn push_night(&mut self, night: u32, forward: bool, units: u64)
        requires admits { Admits self.old.flow (if forward then spare_more night else spare_less night) units }
        requires fits { FitsSpare self.old.flow (if forward then spare_more night else spare_less night) units }
        ensures flow { self.new.flow ≡
            pushed self.old.flow (if forward then spare_more night else spare_less night) units }
        ensures potentials { self.new.potentials ≡ self.old.potentials }
    {
        let place = night as usize;
        if forward {
            self.spare[place] += units;
        } else {
            self.spare[place] -= units;
        }
    }

    /// Raises each potential by its number, less what the last node gets; each price stays within its limits. `by` has
    /// one number per node, in minor units of money. It takes the time of the nodes.
    pub fn lift(&mut self, by: &[u128])
        requires one_each { length by.now ≡ length self.old.flow.program.rooms + 1 }
        requires small { All (λ x. x ≤ 10 ^ 30) by.now }
        ensures potentials { IsLifted (length self.old.flow.program.rooms)
            self.old.potentials by.now self.new.potentials }
        ensures flow { self.new.flow ≡ self.old.flow }
    {
        lift_potentials(&mut self.potentials, by);
    }

    /// Sends units over one hop.
    fn push_hop(&mut self, hop: Hop, units: u64)
        requires { Takes self.old.flow units hop }
        ensures flow { self.new.flow ≡ pushed self.old.flow (step_of self.old.flow.program hop) units }
        ensures potentials { self.new.potentials ≡ self.old.potentials }
    {
        let stays = self.instance.stays();
        if hop.arc < stays {
            self.push_stay(hop.arc, hop.forward, units);
        } else {
            self.push_night(hop.arc - stays, hop.forward, units);
        }
    }

    /// Sends units along a path, each of whose hops has room for them. It takes the time of the hops.
    pub fn push(&mut self, path: &[Hop], units: u64)
        requires once { NamesArcsOnce path.now }
        requires takes { All (Takes self.old.flow units) path.now }
        ensures flow { self.new.flow ≡ pushed_along self.old.flow (steps_of self.old.flow.program path.now) units }
        ensures potentials { self.new.potentials ≡ self.old.potentials }
    {
        for hop in path {
            self.push_hop(*hop, units);
        }
    }

    /// How many units the hop has room for; the greatest number over a free arc forward, which has no limit.
    pub fn room(&self, hop: Hop) -> u64
        requires { hop.arc < arcs self.now.flow.program }
        ensures { result ≡ room_of self.now.flow (step_of self.now.flow.program hop) }
    {
        let stays = self.instance.stays();
        if hop.arc < stays {
            let sold = self.sold(hop.arc);
            if hop.forward {
                self.stay(hop.arc).forecast.saturating_sub(sold)
            } else {
                sold
            }
        } else if hop.forward {
            u64::MAX
        } else {
            self.spare[(hop.arc - stays) as usize]
        }
    }

    /// The rooms of a night, in units.
    pub fn rooms(&self, night: u32) -> u64
        requires { night < length self.now.flow.program.rooms }
        ensures value { result ≡ slice_index self.now.flow.program.rooms night }
        ensures limit { result ≤ MOST_UNITS }
    {
        self.instance.rooms(night)
    }

    /// Sets the rooms of one night, in units.
    pub fn set_rooms(&mut self, night: u32, rooms: u64)
        requires night { night < length self.old.flow.program.rooms }
        requires rooms { rooms ≤ MOST_UNITS }
        ensures { self.new ≡ with_program self.old (with_rooms self.old.flow.program night rooms) }
    {
        set_rooms(&mut self.instance, night, rooms);
    }

    /// Adds (`up`) or takes away so many units on each night of a span. What the flow carries stays.
    pub fn move_rooms(&mut self, span: Span, up: bool, units: u64)
        requires { Fits self.old.flow.program (Rooms span up units) }
        ensures { self.new ≡ with_program self.old (changed self.old.flow.program (Rooms span up units)) }
    {
        self.instance.apply(Change::Rooms { span, up, units });
    }

    /// Sets the rate of a stay, in minor units of money.
    pub fn set_rate(&mut self, stay: u32, rate: u64)
        requires stay { stay < length self.old.flow.program.stays }
        requires rate { (1 ≤ rate) × (rate ≤ MOST_RATE) }
        ensures { self.new ≡ with_program self.old (changed self.old.flow.program (Rate stay rate)) }
    {
        self.instance.apply(Change::Rate { stay, value: rate });
    }

    /// Sets the forecast of a stay, in units.
    pub fn set_forecast(&mut self, stay: u32, value: u64)
        requires stay { stay < length self.old.flow.program.stays }
        requires value { value ≤ MOST_FORECAST }
        requires sold { slice_index self.old.flow.sell stay ≤ value }
        ensures { self.new ≡ with_program self.old (changed self.old.flow.program (Demand stay value)) }
    {
        self.instance.apply(Change::Demand { stay, value });
    }

    /// Sets how many units of a stay are sold.
    pub fn set_sold(&mut self, stay: u32, units: u64)
        requires stay { stay < length self.old.flow.program.stays }
        requires forecast { units ≤ (stay_at self.old.flow.program stay).forecast }
        ensures { self.new ≡ with_sold self.old stay units }
    {
        let place = stay as usize;
        self.sell[place] = units;
    }

    /// The revenue of the allocation, in minor units of money times the unit. It takes the time of the stays.
    pub fn worth(&self) -> u128
        ensures { result ≡ worth self.now.flow.program self.now.flow.sell }
    {
        self.instance.worth(&self.sell)
    }

    /// The price of each night, in minor units of money: one number per night. The one error is `Memory`.
    pub fn prices(&self, alloc: Global) -> Result<Vec<u64>, Memory>
        ensures { IfOk result (λ v. v.items ≡ prices_of self.now) }
    {
        prices(alloc, &self.potentials)
    }

    /// The allocation, the prices, and the revenue as the value of both. The one error is `Memory`.
    pub fn certificate(&self, alloc: Global) -> Result<Certificate, Memory>
        ensures { IfOk result (λ c. (c.value ≡ worth self.now.flow.program self.now.flow.sell) ×
            (c.sell ≡ self.now.flow.sell) × (c.prices ≡ prices_of self.now)) }
    {
        let sell = Vec::from_slice(alloc, &self.sell)?;
        let prices = prices(alloc, &self.potentials)?;
        let value = self.instance.worth(&self.sell);
        Ok(Certificate {
            value,
            sell,
            prices,
        })
    }
}
