//! The commands of one session of a script.
ghost use Rattle.std.specs.Prelude.{◌≡◌};

use bp_types::Command;
use std::marker::Model;

/// What one session of a script asks, in its order.
///
/// Contracts see a list of commands.
#[derive(Debug, Drop)]
pub struct Commands {
    pub(crate) list: Vec<Command>,
}

impl Model for Commands {
    ghost use Rattle.std.specs.Prelude.{List};
    ghost use Rattle.bp_types.specs.declared.command.Command.{Command};

    ghost Value = { List Command };

    ghost view = { λ a. a.list.items };
}

impl Commands {
    /// The commands of a vector.
    pub fn new(list: Vec<Command>) -> Commands
        ensures { result ≡ list.items }
    {
        Commands { list }
    }

    /// The commands, the first one first.
    pub fn list(&self) -> &[Command]
        ensures { result.now ≡ self.now }
    {
        &self.list
    }

    /// The commands as a vector. It takes no memory.
    pub fn into_list(self) -> Vec<Command>
        ensures { result.items ≡ self }
    {
        let Commands { list } = self;
        list
    }
}
