//! Journals that are legal, and journals that break one rule each.
ghost use Rattle.std.specs.Prelude.{◌≡◌, ◌<◌, is_some, IsTrue};
ghost use Rattle.bp_core.specs.Lines.{published_position};

use crate::journals::{CASES, Claimed, Row, Setting};
use bp_core::{Act, Entry, Line};
use bp_journal::Journal;
use bp_judge::{Cause, Judgement, judge};
use bp_types::{Certificate, House, Memory, Span, Stay, Steps};
use std::alloc::Global;
use std::marker::Brand;
use std::sync::ledger::{Blank, Ledger};
use std::test::Fail;

/// From, to and rate of the stays; each house has three nights with 2, 1 and 2 rooms.
const STAYS: [(u32, u32, u64); 4] = [(0, 2, 100), (1, 3, 150), (0, 1, 60), (2, 3, 40)];

/// The house of a setting.
pub(crate) fn house(alloc: Global, setting: &Setting) -> Result<House, Fail> {
    let (sold, forecasts, limits) = setting;
    let mut stays = Vec::new(alloc);
    for at in 0..4 {
        let (from, to, rate) = STAYS[at];
        stays.push(Stay {
            span: Span { from, to },
            rate,
            forecast: forecasts[at],
        })?;
    }
    let rooms = Vec::from_slice(alloc, &[2, 1, 2])?;
    let sold = Vec::from_slice(alloc, sold)?;
    match House::new(rooms, sold, stays, *limits) {
        Ok(house) => Ok(house),
        Err(error) => Err(Fail::new(error)),
    }
}

/// The certificate of these numbers.
fn certificate(alloc: Global, claimed: &Claimed) -> Result<Certificate, Memory> {
    Ok(Certificate {
        value: claimed.0,
        sell: Vec::from_slice(alloc, &claimed.1)?,
        prices: Vec::from_slice(alloc, &claimed.2)?,
    })
}

/// The journal of these rows, each Publish and no other act with a certificate.
fn journal(alloc: Global, rows: &[Row]) -> Result<Journal, Fail> {
    let mut journal = Journal::with_capacity(alloc, rows.len(), 3)?;
    for (caller, act, reply, claimed) in rows {
        let entry = Entry {
            caller: *caller,
            act: *act,
            reply: *reply,
        };
        let certificate = match claimed {
            Some(claimed) => Some(certificate(alloc, claimed)?),
            None => None,
        };
        if !may_stand(&entry, &certificate) {
            return Err(Fail::new(format_args!("{entry:?}")));
        }
        journal.push(Line { entry, certificate })?;
    }
    Ok(journal)
}

/// Whether there is a certificate exactly where the act is a Publish.
fn may_stand(entry: &Entry, certificate: &Option<Certificate>) -> bool
    ensures { IsTrue result → is_some certificate.now ≡ is_some (published_position entry.now.act) }
{
    certificate.is_some() == matches!(entry.act, Act::Publish { .. })
}

/// The first place with a cause, and None where the journal is legal.
fn judged<L: Ledger>(
    alloc: Global,
    setting: &Setting,
    rows: &[Row],
    blank: Blank,
) -> Result<Option<(u64, Cause)>, Fail>
    requires name { blank.name ≡ L.name }
    requires parts { blank.parts ≡ L.parts }
    requires some { 0 < blank.parts }
{
    let mut steps: Steps<L> = Steps::new(blank);
    let house = house(alloc, setting)?;
    match judge(alloc, house, journal(alloc, rows)?, &mut steps)? {
        Judgement::Legal(_) => Ok(None),
        Judgement::NotLegal { place, cause } => Ok(Some((place, cause))),
    }
}

#[test]
fn each_journal_is_judged_as_it_should_be(rt: HostRuntime) -> Result<(), Fail> {
    let alloc = rt.alloc();
    for (setting, rows, wanted) in &CASES {
        let found = judged::<Brand>(alloc, setting, rows, Blank::new(1))?;
        assert_eq!(rt; found, *wanted);
    }
    Ok(())
}
