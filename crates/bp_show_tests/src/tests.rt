//! Displays beside a desk: what a look finds, alone and in threads.
ghost use Rattle.std.specs.Prelude.{◌≡◌};

use crate::evening::evening;
use crate::lobby::{LIMITS, Lobby};
use bp_fixtures::{AFTER_ONE, N0, N12, ONE_ROOM, OPENING, THREE_NIGHTS, certificate, three_nights};
use bp_show::{Follow, Look, View};
use bp_types::{Command, Span};
use std::test::Fail;
use std::thread::{Threads, for_each_mut, join};

/// A look at a span, where the view has its nights.
fn look(view: &mut View, span: Span) -> Option<Look>
    ensures { view.new.screen ≡ view.old.screen }
{
    if span.from >= span.to || span.to > view.nights() {
        return None;
    }
    Some(view.look(span))
}

/// The number of the vector that a look at the first night finds.
fn number(view: &mut View) -> Option<u64> {
    look(view, N0).map(|look| look.number)
}

/// Whether a look found this vector, position and sum.
fn is(look: Option<Look>, number: u64, position: u64, sum: u64) -> bool {
    look == Some(Look {
        number,
        position,
        sum,
    })
}

/// The desk publishes vector 1 after one booking, and nothing more.
#[test]
fn a_screen_follows(rt: HostRuntime) -> Result<(), Fail> {
    let (mut lobby, mut views) = Lobby::open(&rt, rt.alloc(), THREE_NIGHTS, 1)?;
    lobby.ask(&rt, Command::Book { stay: 0 });
    let published = lobby.submit(&rt, rt.alloc(), AFTER_ONE)?;
    assert_eq!(rt; published, Ok(1));
    let Some(view) = views.get_mut(0) else {
        return Err("no view".into());
    };
    assert!(rt; is(look(view, N12), 0, 0, 140));
    assert_eq!(rt; lobby.follow(), Ok(Follow::Shown { number: 1 }));
    assert_eq!(rt; lobby.follow(), Ok(Follow::Same { number: 1 }));
    lobby.meet(view);
    assert!(rt; is(look(view, N12), 1, 3, 160));
    drop(lobby);
    assert!(rt; is(look(view, N12), 1, 3, 160));
    Ok(())
}

/// A view answers from its copy where its screen is gone, be there something newer or not.
#[test]
fn a_view_whose_screen_is_gone(rt: HostRuntime) -> Result<(), Fail> {
    let (mut lobby, mut views) = Lobby::open(&rt, rt.alloc(), ONE_ROOM, 2)?;
    let (Some(mut first), Some(mut second)) = (views.pop(), views.pop()) else {
        return Err("no views".into());
    };
    assert!(rt; lobby.follow_all(&rt, rt.alloc(), 2)?);
    assert!(rt; is(look(&mut first, N0), 2, 5, 2));
    drop(lobby);
    assert!(rt; is(look(&mut first, N0), 2, 5, 2));
    assert!(rt; is(look(&mut second, N0), 0, 0, 50));
    Ok(())
}

/// Whether the numbers of so many looks never fall.
fn never_falls(view: &mut View, looks: u32) -> bool {
    let mut last = Some(0);
    for _ in 0..looks {
        let next = number(view);
        if next < last {
            return false;
        }
        last = next;
    }
    true
}

/// No clause says that a look finds what was shown last, so a look that answers only what the last `meet` gave is
/// refused here alone.
#[test]
fn two_views_that_look(rt: HostRuntime) -> Result<(), Fail> {
    let (mut lobby, mut views) = Lobby::open(&rt, rt.alloc(), ONE_ROOM, 2)?;
    let (Some(mut first), Some(mut second)) = (views.pop(), views.pop()) else {
        return Err("no views".into());
    };
    let (followed, (rose, also_rose)) = join(
        &rt,
        || lobby.follow_all(&rt, rt.alloc(), 300),
        || {
            join(
                &rt,
                || never_falls(&mut first, 20000),
                || never_falls(&mut second, 20000),
            )
        },
    );
    let last = join(&rt, || number(&mut first), || number(&mut second));
    assert!(rt; followed? && rose && also_rose);
    assert_eq!(rt; last, (Some(300), Some(300)));
    Ok(())
}

/// A view, and the number that it found.
#[derive(Drop)]
struct Viewer {
    view: View,
    number: Option<u64>,
}

#[test]
fn sixteen_views_at_once(rt: HostRuntime) -> Result<(), Fail> {
    let (mut lobby, mut views) = Lobby::open(&rt, rt.alloc(), ONE_ROOM, 16)?;
    let mut viewers = Vec::new(rt.alloc());
    for _ in 0..16 {
        if let Some(view) = views.pop() {
            viewers.push(Viewer { view, number: None })?;
        }
    }
    assert!(rt; lobby.follow_all(&rt, rt.alloc(), 20)?);
    for_each_mut(
        &rt,
        &mut viewers,
        16,
        &|_, viewer: &mut Viewer| viewer.number = number(&mut viewer.view),
    );
    assert_eq!(rt; viewers.len(), 16);
    for viewer in &viewers {
        assert_eq!(rt; viewer.number, Some(20));
    }
    Ok(())
}

#[test]
fn an_evening_at_the_desk(rt: HostRuntime) -> Result<(), Fail> {
    let house = three_nights(rt.alloc(), LIMITS)?;
    let opening = certificate(rt.alloc(), OPENING)?;
    let later = certificate(rt.alloc(), AFTER_ONE)?;
    let (lobby, website) = evening(&rt, rt.alloc(), house, opening, later)?;
    assert!(rt; is(lobby, 1, 3, 160) && is(website, 1, 3, 160));
    Ok(())
}
