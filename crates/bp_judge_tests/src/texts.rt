//! Journals that are read, judged, and written anew.
ghost use Rattle.std.specs.Prelude.{◌≡◌, ◌<◌};

use crate::journals::{Setting, TIGHT, WIDE};
use crate::tests::house;
use bp_edges::MemorySink;
use bp_journal::{read, write};
use bp_judge::{Judgement, judge};
use bp_text::TextError;
use bp_types::Steps;
use std::alloc::{AllocError, Global};
use std::marker::Brand;
use std::sync::ledger::{Blank, Ledger};
use std::test::Fail;

/// Three calls of one session, and the vectors that were published.
const THREE_CALLS: &str = "0 0 publish 0 vector 0
value 250
sell 0 1 1 1
prices 0 100 40
1 1 enrol done
2 1 book 0 accepted 0 100
3 1 book 1 noroom 0 140 1
4 1 publish 4 vector 1
value 140
sell 0 0 1 2
prices 60 40 40
5 1 book 3 accepted 1 40
6 1 leave done
7 0 publish 7 vector 2
value 100
sell 0 0 1 1
prices 60 40 40
end
";

/// A rate is changed between two bookings.
const REPRICED: &str = "0 0 publish 0 vector 0
value 250
sell 0 1 1 1
prices 0 100 40
1 1 enrol done
2 1 book 0 accepted 0 100
3 1 reprice 0 99 done
4 1 book 0 toolow 0 100 99
5 1 leave done
6 0 publish 6 vector 1
value 140
sell 0 0 1 2
prices 0 110 40
end
";

/// The text with this first line.
fn under(alloc: Global, first: &str, lines: &str) -> Result<Vec<u8>, AllocError> {
    let mut text = Vec::from_slice(alloc, first.as_bytes())?;
    text.push(b'\n')?;
    text.extend_from_slice(lines.as_bytes())?;
    Ok(text)
}

/// Whether the text is a legal journal of the house, and its book is written as the other text.
fn is_written_as<L: Ledger>(
    alloc: Global,
    setting: &Setting,
    text: &[u8],
    wanted: &[u8],
    blank: Blank,
) -> Result<bool, Fail>
    requires name { blank.name ≡ L.name }
    requires parts { blank.parts ≡ L.parts }
    requires some { 0 < blank.parts }
{
    let mut steps: Steps<L> = Steps::new(blank);
    let journal = read(alloc, text)?;
    let Judgement::Legal(book) = judge(alloc, house(alloc, setting)?, journal, &mut steps)? else {
        return Ok(false);
    };
    let mut out = MemorySink::new(Vec::new(alloc));
    write(alloc, &book, &mut out)?;
    Ok(out.written() == wanted)
}

#[test]
fn an_old_journal_is_written_anew(rt: HostRuntime) -> Result<(), Fail> {
    let alloc = rt.alloc();
    let old = under(alloc, "journal 1", THREE_CALLS)?;
    let new = under(alloc, "journal 2", THREE_CALLS)?;
    let anew = is_written_as::<Brand>(alloc, &TIGHT, &old, &new, Blank::new(1))?;
    assert!(rt; anew);
    Ok(())
}

#[test]
fn a_rate_is_changed_in_a_journal_of_the_second_version_alone(rt: HostRuntime) -> Result<(), Fail> {
    let alloc = rt.alloc();
    let old = under(alloc, "journal 1", REPRICED)?;
    assert!(rt; read(alloc, &old).err() == Some(TextError::BadLine { line: 8 }));
    let new = under(alloc, "journal 2", REPRICED)?;
    let same = is_written_as::<Brand>(alloc, &WIDE, &new, &new, Blank::new(1))?;
    assert!(rt; same);
    Ok(())
}
