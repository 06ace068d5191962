//! Perches for the views, on which seats rest that know of a try.
ghost use Rattle.std.specs.Prelude.{◌≡◌, ◌<◌, [], IfSome};
ghost use Rattle.bp_types.specs.declared.limits.TheConstants.{MOST_VIEWS};

use crate::order::{Place, Sight};
use crate::sums::Sums;
use atomic_table::Perch;
use std::marker::Model;

/// A perch for each of sixteen views, on which a seat may rest that knows of a try. With one perch for all, two views
/// that look at once would find it empty.
///
/// Contracts see the table and the view of the seats that rest there, which are the same at each.
#[derive(Drop)]
pub(crate) struct Gifts {
    first: Perch<Sums, Sight>,
    others: [Perch<Sums, Sight>; 15],
}

impl Model for Gifts {
    ghost use Rattle.std.specs.Prelude.{◌≡◌, All};
    ghost use Rattle.atomic_table.specs.Perched.{Roost};
    ghost use Rattle.bp_show.specs.declared.order.Sight.{Sight};

    ghost Value = { Roost Sight };

    ghost view = { λ g. g.first };

    ghost invariant = { λ g. All (λ p. p ≡ g.first) g.others };
}

impl Gifts {
    /// Empty perches for seats that know as much as this one.
    pub(crate) fn new(like: &Place) -> Gifts
        ensures { (result.table_id ≡ like.now.table_id) × (result.view ≡ like.now.me.0) }
    {
        Gifts {
            first: Perch::new(like, 0),
            others: [
                Perch::new(like, 0),
                Perch::new(like, 0),
                Perch::new(like, 0),
                Perch::new(like, 0),
                Perch::new(like, 0),
                Perch::new(like, 0),
                Perch::new(like, 0),
                Perch::new(like, 0),
                Perch::new(like, 0),
                Perch::new(like, 0),
                Perch::new(like, 0),
                Perch::new(like, 0),
                Perch::new(like, 0),
                Perch::new(like, 0),
                Perch::new(like, 0),
            ],
        }
    }

    /// Takes the seat that rests on a perch, if one does.
    pub(crate) fn take(&self, index: usize) -> Option<Place>
        requires { index < MOST_VIEWS }
        ensures { IfSome result (λ s. (s.table_id ≡ self.now.table_id) × (s.me ≡ (self.now.view, []))) }
    {
        if index == 0 {
            self.first.take(0).1
        } else {
            self.others[index - 1].take(0).1
        }
    }

    /// Lets the seat rest on a perch, if none does.
    pub(crate) fn give(&self, index: usize, seat: Place)
        requires index { index < MOST_VIEWS }
        requires seat { (seat.table_id ≡ self.now.table_id) × (seat.me ≡ (self.now.view, [])) }
    {
        let _ = if index == 0 {
            self.first.give(seat, 0, 2)
        } else {
            self.others[index - 1].give(seat, 0, 2)
        };
    }
}
