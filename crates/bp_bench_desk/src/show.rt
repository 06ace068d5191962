//! Looks at displays while their screen follows a desk that publishes a new vector about each millisecond.
ghost use Rattle.bp_types.specs.declared.limits.TheConstants.{MOST_VIEWS};

use crate::hotel::{first_night_at, narrow_hotel};
use crate::lobby::Lobby;
use crate::measured::{Measured, one};
use bp_show::{Follow, Look, View};
use bp_types::limits::MOST_VIEWS;
use bp_types::{Certificate, Command, Span};
use std::alloc::Global;
use std::sync::Wait;
use std::test::Fail;
use std::thread::{self, Threads, for_each_mut, join};
use std::time::{Clock, Duration, Instant};

/// The span that is looked at.
const TWO_NIGHTS: Span = Span { from: 0, to: 2 };

/// A view, and how often it was looked at.
#[derive(Drop)]
struct Viewer {
    view: View,
    /// Looks in a second, and 0 where a number fell or a sum was wrong.
    rate: u64,
}

/// A look at that span, where the view has its nights.
fn look(view: &mut View) -> Option<Look> {
    if TWO_NIGHTS.to > view.nights() {
        return None;
    }
    Some(view.look(TWO_NIGHTS))
}

/// A thousand looks from a number on, and the last number; None where a number fell or a sum was wrong.
fn look_on(view: &mut View, from: u64) -> Option<u64> {
    let mut last = from;
    for _ in 0..1000 {
        let look = look(view)?;
        if look.number < last || look.sum != look.number.saturating_add(1) {
            return None;
        }
        last = look.number;
    }
    Some(last)
}

/// The looks in a second, by as many as are made in so many milliseconds.
fn rate_of<R: Clock>(rt: &R, view: &mut View, milliseconds: u32) -> Option<u64> {
    let start = Instant::now(rt).ok()?;
    let mut last = 0;
    for batch in 1..=1_000_000_000u64 {
        last = look_on(view, last)?;
        let taken = u64::try_from(start.elapsed(rt).ok()?.as_micros()).ok()?;
        if taken / 1000 >= u64::from(milliseconds) {
            return batch.saturating_mul(1_000_000_000).checked_div(taken);
        }
    }
    None
}

/// The certificate by which the one guest pays this rate, and the first night has it as its price.
fn certificate(alloc: Global, rate: u64) -> Result<Certificate, Fail> {
    Ok(Certificate {
        value: u128::from(rate),
        sell: vec![in alloc; 1; 1]?,
        prices: first_night_at(alloc, rate)?,
    })
}

/// Publishes a vector whose price of the first night is one more than its number, and has it shown.
fn follow_one<R: Wait>(
    rt: &R,
    alloc: Global,
    lobby: &mut Lobby<'_, R>,
    number: u64,
) -> Result<bool, Fail> {
    let rate = number.saturating_add(1);
    lobby.ask(rt, Command::Reprice { stay: 0, rate });
    let published = lobby.submit(rt, alloc, certificate(alloc, rate)?);
    Ok(published == Ok(number) && lobby.follow() == Ok(Follow::Shown { number }))
}

/// Publishes so many vectors; whether each was shown.
fn follow_all<R: Wait + Clock>(
    rt: &R,
    alloc: Global,
    lobby: &mut Lobby<'_, R>,
    vectors: u32,
) -> Result<bool, Fail> {
    for number in 1..=u64::from(vectors) {
        if !follow_one(rt, alloc, lobby, number)? {
            return Ok(false);
        }
        thread::sleep(rt, Duration::from_millis(1));
    }
    Ok(true)
}

/// The looks of all viewers in a second; None where one was wrong, or does not end on the last vector.
fn rate_of_all(viewers: &mut [Viewer], vectors: u32) -> Option<u64> {
    let mut rate: u64 = 0;
    for viewer in viewers {
        let last = look(&mut viewer.view)?;
        if viewer.rate == 0 || last.number != u64::from(vectors) {
            return None;
        }
        rate = rate.saturating_add(viewer.rate);
    }
    Some(rate)
}

/// A viewer for each view.
fn seated(alloc: Global, views: Vec<View>) -> Result<Vec<Viewer>, Fail> {
    let mut viewers = Vec::new(alloc);
    for view in views {
        viewers.push(Viewer { view, rate: 0 })?;
    }
    Ok(viewers)
}

/// Looks by so many threads for so many milliseconds, while so many vectors are shown: the looks in a second, and the
/// number of the last vector.
pub(crate) fn run<R: Clock + Threads + Wait + Sync>(
    rt: &R,
    alloc: Global,
    threads: u32,
    milliseconds: u32,
    vectors: u32,
) -> Result<Vec<Measured>, Fail> {
    if threads < 1 || threads > MOST_VIEWS {
        return Err(Fail::new(format_args!("1 to {MOST_VIEWS} threads")));
    }
    let (mut lobby, views) = Lobby::open(rt, alloc, &narrow_hotel(alloc)?, threads)?;
    let mut viewers = seated(alloc, views)?;
    let (followed, ()) = join(
        rt,
        || follow_all(rt, alloc, &mut lobby, vectors),
        || {
            for_each_mut(
                rt,
                &mut viewers,
                MOST_VIEWS as usize,
                &|_, viewer: &mut Viewer| viewer.rate = rate_of(
                    rt,
                    &mut viewer.view,
                    milliseconds,
                ).unwrap_or(0),
            )
        },
    );
    let followed = followed?;
    match rate_of_all(&mut viewers, vectors) {
        Some(rate) if followed => one(alloc, "looks", u128::from(rate), u64::from(vectors)),
        _ => Err(Fail::new("a vector, a look or a number is wrong")),
    }
}
