//! Laws over the definitions, as the contracts of functions that do nothing.
ghost use Rattle.bp_cli.specs.Laws.{TasksAreUnique};

/// Words ask for one task at most.
pub fn tasks_are_unique()
    ensures { TasksAreUnique }
{}
