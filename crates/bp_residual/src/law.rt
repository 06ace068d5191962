//! Laws over flows, potentials and residual paths, as the contracts of functions that do nothing.
//!
//! Sources: complementary slackness and successive shortest paths are standard results on linear programs and
//! minimum-cost flows.
ghost use Rattle.bp_residual.specs.Laws.{
  SlackFlowsAreOptimal,
  OptimalPricesAreSlack,
  PushKeepsSlack,
  LiftKeepsSlack,
  LimitKeepsSlack,
  PathsExist,
  GrowthBoundsPaths,
  ShortestPathsBecomeTight,
  PushMovesImbalance,
  PushMovesTheStart,
  PushMovesTheEnd,
  SettledPricesAreLeast,
  LeastPricesAreWithinRates,
};

/// Complementary slackness, one way: where no residual step has a negative reduced cost, the allocation of a balanced
/// flow is worth the bound of the prices.
pub fn slack_flows_are_optimal()
    ensures { SlackFlowsAreOptimal }
{}

/// The other way: where worth and bound are equal, no residual step has a negative reduced cost.
pub fn optimal_prices_are_slack()
    ensures { OptimalPricesAreSlack }
{}

/// A push over a step of reduced cost 0 leaves none negative.
pub fn push_keeps_slack()
    ensures { PushKeepsSlack }
{}

/// A lift by numbers that grow over no residual step by more than its reduced cost leaves none negative. Distances by
/// reduced cost are such numbers.
pub fn lift_keeps_slack()
    ensures { LiftKeepsSlack }
{}

/// Prices brought down to a limit that no rate exceeds leave none negative.
pub fn limit_keeps_slack()
    ensures { LimitKeepsSlack }
{}

/// While an imbalance stands, a residual path leads from the one node to the other.
pub fn paths_exist()
    ensures { PathsExist }
{}

/// No residual path is shorter than what grows along it.
pub fn growth_bounds_paths()
    ensures { GrowthBoundsPaths }
{}

/// After a lift by the distances each step of a shortest path has reduced cost 0.
pub fn shortest_paths_become_tight()
    ensures { ShortestPathsBecomeTight }
{}

/// A push along steps of reduced cost 0 leaves none negative, and lessens the imbalance by its units: one augmentation
/// of successive shortest paths.
pub fn push_moves_imbalance()
    ensures { PushMovesImbalance }
{}

/// Potentials lowered by the distances to the last node are those of the least optimal prices.
pub fn settled_prices_are_least()
    ensures { SettledPricesAreLeast }
{}

/// No least price is above a limit that no rate exceeds.
pub fn least_prices_are_within_rates()
    ensures { LeastPricesAreWithinRates }
{}

/// A push of all units over a step of reduced cost 0 moves the node that they come from.
pub fn push_moves_the_start()
    ensures { PushMovesTheStart }
{}

/// And likewise the node that they go to.
pub fn push_moves_the_end()
    ensures { PushMovesTheEnd }
{}
