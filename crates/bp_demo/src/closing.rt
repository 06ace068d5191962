//! The instance that a book has come to.
ghost use Rattle.std.specs.Prelude.{◌≡◌, ◌<◌, length, map, IfOk};
ghost use Rattle.std.specs.List.{range_with_len};
ghost use Rattle.bp_core.specs.Instance.{instance_of, units_left_at, stay_now};

use bp_core::Book;
use bp_types::{Instance, Memory, Stay};
use std::alloc::Global;

/// The units left on a night.
#[tactic(auto, using(crate::proofs::ClosingLemmas::few_units))]
fn units_left(book: &Book, night: u32) -> u64
    requires { night < length book.now.house.rooms }
    ensures { result ≡ units_left_at book.now.house book.now.history night }
{
    book.facts();
    book.house().limits().unit * (book.rooms(night) - book.sold(night))
}

/// A stay with its rate and its forecast as they are now.
fn stay_now(book: &Book, stay: u32) -> Stay
    requires { stay < length book.now.house.stays }
    ensures { result ≡ stay_now book.now.house book.now.history stay }
{
    Stay {
        span: book.house().stay(stay).span,
        rate: book.rate(stay),
        forecast: book.forecast(stay),
    }
}

/// The units left on each night.
fn rooms_left(alloc: Global, book: &Book) -> Result<Vec<u64>, Memory>
    ensures { IfOk result (λ v. v.items ≡
        map (units_left_at book.now.house book.now.history) (range_with_len 0 (length book.now.house.rooms))) }
{
    let mut left = Vec::new(alloc);
    for night in 0..book.house().nights() {
        left.push(units_left(book, night))?;
    }
    Ok(left)
}

/// Each stay with its rate and its forecast as they are now.
fn stays_now(alloc: Global, book: &Book) -> Result<Vec<Stay>, Memory>
    ensures { IfOk result (λ v. v.items ≡
        map (stay_now book.now.house book.now.history) (range_with_len 0 (length book.now.house.stays))) }
{
    let mut stays = Vec::new(alloc);
    for stay in 0..book.house().stays() {
        stays.push(stay_now(book, stay))?;
    }
    Ok(stays)
}

/// The instance after the whole history.
pub(crate) fn closing_instance(alloc: Global, book: &Book) -> Result<Instance, Memory>
    ensures { IfOk result (λ p. p ≡ instance_of book.now.house book.now.history) }
{
    book.facts();
    let rooms = rooms_left(alloc, book)?;
    let stays = stays_now(alloc, book)?;
    Ok(Instance::within(rooms, stays))
}
