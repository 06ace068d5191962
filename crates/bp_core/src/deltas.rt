//! The changes of the instance that one entry makes: none, one or two, in order.
ghost use Rattle.std.specs.Prelude.{◌≡◌, length, ◌<◌, ◌+◌, ◌++◌, vec_len, vec_capacity};
ghost use Rattle.bp_core.specs.Deltas.{delta_list};

use bp_types::Change;

/// What one entry changes: at most two changes, in order.
#[derive(Clone, Copy, Debug, PartialEq, Eq)]
pub(crate) enum Deltas {
    None,
    One(Change),
    Two(Change, Change),
}

impl Deltas {
    /// How many there are.
    pub(crate) fn len(self) -> usize
        ensures { result ≡ length (delta_list self) }
    {
        match self {
            Deltas::None => 0,
            Deltas::One(_) => 1,
            Deltas::Two(_, _) => 2,
        }
    }

    /// Appends them, where there is room.
    pub(crate) fn append_to(self, into: &mut Vec<Change>)
        requires { vec_len into.old + length (delta_list self) < vec_capacity into.old + 1 }
        ensures items { into.new.items ≡ into.old.items ++ delta_list self }
        ensures len { vec_len into.new ≡ vec_len into.old + length (delta_list self) }
        ensures capacity { vec_capacity into.new ≡ vec_capacity into.old }
    {
        match self {
            Deltas::None => {}
            Deltas::One(change) => into.push_reserved(change),
            Deltas::Two(first, second) => {
                into.push_reserved(first);
                into.push_reserved(second);
            }
        }
    }
}
