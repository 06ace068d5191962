//! Laws over the definitions, as the contracts of functions that do nothing.
ghost use Rattle.bp_warm.specs.Laws.{UnitsAppend};

/// Changes that are made in two goes move as many units as in one. Where they lead, and that they fit, is
/// `changes_append` of `bp_types`.
pub fn units_append()
    ensures { UnitsAppend }
{}
