//! Laws over the definitions, as the contracts of functions that do nothing.
ghost use Rattle.bp_optimise.specs.Laws.{NewGoes, SupersededIsFollowed};

/// An optimiser at position 0 goes with every pass of a house whose opening instance its solver has, whatever the pass
/// has seen.
pub fn new_goes()
    ensures { NewGoes }
{}

/// A round is superseded only where a vector stands at a place from the length of the history at its first turn on.
pub fn superseded_is_followed()
    ensures { SupersededIsFollowed }
{}
