//! What readers take, and how it changes where one vector more is shown.
use crate::gifts::Gifts;
use crate::order::Place;
use crate::sums::Sums;
use left_right::Absorb;
use std::alloc::AllocError;

/// What readers take: the newest vector, the try that showed it, and seats that know of the try.
#[derive(Drop)]
pub(crate) struct Face {
    pub(crate) shown: Sums,
    pub(crate) stamp: u64,
    pub(crate) gift: Gifts,
}

/// One vector more, with a seat that knows of the try.
#[derive(Drop)]
pub(crate) struct Showing {
    pub(crate) vector: Sums,
    pub(crate) stamp: u64,
    pub(crate) like: Place,
}

/// The one operation of left-right here: it is made on both copies, and never fails.
impl Absorb<Showing> for Face {
    type State = Face;

    ghost state = { λ f. f };

    ghost applied = { λ f s. record f { shown = s.vector; stamp = s.stamp; gift = record { table_id = s.like.table_id; view = s.like.me.0 } } };

    ghost never_fails = { Unit {0} };

    fn absorb_first(&mut self, operation: &Showing, _other: &Face) -> Result<(), AllocError> {
        self.shown = operation.vector.copy();
        self.stamp = operation.stamp;
        self.gift = Gifts::new(&operation.like);
        Ok(())
    }
}
