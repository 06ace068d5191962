//! Laws over the definitions, as the contracts of functions that do nothing.
ghost use Rattle.bp_script.specs.Laws.{SessionsAreFew, CommandsAreFew, CommandsAreInRange};

/// A script has no more sessions than there may be.
pub fn sessions_are_few()
    ensures { SessionsAreFew }
{}

/// A script has no more commands than a history may have, those of all its sessions added up.
pub fn commands_are_few()
    ensures { CommandsAreFew }
{}

/// Each command of a script is within its limits, in a house of the hotel's nights with a stay for each code.
pub fn commands_are_in_range()
    ensures { CommandsAreInRange }
{}
