//! Laws of desk runs, as the contracts of functions that do nothing.
ghost use Rattle.bp_desk_run.specs.Laws.{CutIsNotWhole, VectorsAreFew};

/// A run that was cut is not complete and closed.
pub fn cut_is_not_whole()
    ensures { CutIsNotWhole }
{}

/// Every desk run has two vectors at most, and one more for every `lead` commands of its scripts.
pub fn vectors_are_few()
    ensures { VectorsAreFew }
{}
