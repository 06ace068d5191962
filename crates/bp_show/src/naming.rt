//! The rule of what readers take: its seats know of the try that showed it, and are of one table.
ghost use Rattle.bp_show.specs.Naming.{Agrees, unnamed, Named, Saw, informed};

use crate::face::Face;
use crate::name::Name;
use atomic_table::{Join, Split};
use crossbeam_utils::rule::{Outcome, Protocol};

/// The rule itself.
pub(crate) struct Shows;

impl Protocol<Face, Option<Name>> for Shows {
    ghost holds = { Agrees };

    ghost first = { unnamed };
}

/// The writer learns the table of what it shows.
pub(crate) struct Names;

impl Outcome<Face, Option<Name>> for Names {
    ghost then = { Named };
}

/// A reader sees what is shown.
pub(crate) struct Sees;

impl Outcome<Face, Option<Name>> for Sees {
    ghost then = { Saw };
}

/// A reader is told the table.
pub(crate) struct Tells;

impl Split<Option<Name>> for Tells {
    ghost left = { λ v. v };

    ghost right = { λ v. v };
}

impl Join<Option<Name>> for Tells {
    ghost both = { informed };

    ghost spent = { unnamed };
}
