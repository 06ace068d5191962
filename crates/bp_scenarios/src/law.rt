//! Laws over scenarios, as the contracts of functions that do nothing.
ghost use Rattle.bp_text.specs.Laws.{HasOneSpelling, IsPrefixFree};
ghost use Rattle.bp_scenarios.specs.Texts.{scenario_lines};
ghost use Rattle.bp_scenarios.specs.Laws.{OutcomeIsUnique, ScenariosAreReadOneWay};

use bp_types::law::{least_prices_are_unique, optimum_is_unique};

/// A list of changes has one answer, whoever finds it.
pub fn outcome_is_unique()
    ensures { OutcomeIsUnique }
{
    optimum_is_unique();
    least_prices_are_unique();
}

/// No two lists of scenarios have one text, and none goes on behind another; bytes are read as scenarios of a problem
/// in one way.
pub fn scenarios_have_one_spelling()
    ensures spelling { HasOneSpelling scenario_lines }
    ensures prefix { IsPrefixFree scenario_lines }
    ensures reading { ScenariosAreReadOneWay }
{}
