//! Laws over the definitions, as the contracts of functions that do nothing.
ghost use Rattle.bp_demo.specs.Laws.{SummariesAreUnique, DemosAreUnique};

use bp_types::law;

/// A house has one summary.
pub fn summaries_are_unique()
    ensures { SummariesAreUnique }
{
    law::optimum_is_unique();
    law::least_prices_are_unique();
}

/// Four numbers have one text.
pub fn demos_are_unique()
    ensures { DemosAreUnique }
{
    law::optimum_is_unique();
    law::least_prices_are_unique();
}
