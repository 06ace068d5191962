//! Journals with one line changed, and what is said of each.
use crate::damaged_tests::gives;
use crate::files::{JOURNAL, RESIZED, THREE_CALLS};
use std::test::Fail;

/// A line in which X is a journal of the first version; the lines of the journal; one of them and what stands in its
/// place; the status and the text.
type Changed = (
    &'static str,
    &'static str,
    &'static str,
    &'static str,
    u8,
    &'static str,
);

/// The changed journals. A comment above some says what is wrong.
fn changed() -> &'static [Changed] {
    &[
        // A vector that certifies nothing at its position, and a booking of a full night.
        (
            "replay two S F B X",
            THREE_CALLS,
            "value 140\n",
            "value 141\n",
            1,
            "illegal 4 certificate\n",
        ),
        (
            "replay two S F B X",
            THREE_CALLS,
            "3 1 book 1 noroom 0 140 1\n",
            "3 1 book 1 accepted 0 140\n",
            1,
            "illegal 3 reply\n",
        ),
        // Lines of a short journal.
        (
            "judge A X",
            JOURNAL,
            "value 250\n",
            "value 251\n",
            1,
            "illegal 0 certificate\n",
        ),
        (
            "judge A X",
            JOURNAL,
            "2 1 book 0 accepted 0 100\n",
            "2 1 book 9 accepted 0 100\n",
            1,
            "illegal 2 range\n",
        ),
        (
            "judge A X",
            JOURNAL,
            "2 1 book 0 accepted 0 100\n",
            "2 1 book 0 accepted 0 99\n",
            1,
            "illegal 2 reply\n",
        ),
        (
            "judge A X",
            JOURNAL,
            "3 1 leave done\n",
            "3 2 leave done\n",
            1,
            "illegal 3 caller\n",
        ),
        (
            "judge A X",
            JOURNAL,
            "2 1 book 0 accepted 0 100\n",
            "2 1 resize 0 1 done\n",
            0,
            "legal 4\n",
        ),
        (
            "judge A X",
            JOURNAL,
            "2 1 book 0 accepted 0 100\n",
            "2 1 book 00 accepted 0 100\n",
            3,
            "refused 2 badline 7\n",
        ),
        // Other changes in the place of one that leaves fewer rooms than are sold.
        (
            "replay two S F one-sold X",
            RESIZED,
            "2 1 resize 1 0 belowsold 1\n",
            "2 1 resize 1 2 done\n",
            0,
            "legal 4\n",
        ),
        (
            "replay two S F one-sold X",
            RESIZED,
            "2 1 resize 1 0 belowsold 1\n",
            "2 1 reforecast 1 7 done\n",
            0,
            "legal 4\n",
        ),
        (
            "replay two S F one-sold X",
            RESIZED,
            "2 1 resize 1 0 belowsold 1\n",
            "2 1 resize 1 2 belowsold 1\n",
            1,
            "illegal 2 reply\n",
        ),
    ]
}

#[test]
fn each_changed_line_is_judged(rt: HostRuntime) -> Result<(), Fail> {
    let alloc = rt.alloc();
    for (line, journal, old, new, status, text) in changed() {
        let Some((_, entries)) = journal.split_once("\n") else {
            return Err("a journal without lines".into());
        };
        let Some((front, behind)) = entries.split_once(*old) else {
            return Err("the line is not there".into());
        };
        let mut bytes = String::from_str(alloc, "journal 1\n")?;
        bytes.push_str(front)?;
        bytes.push_str(new)?;
        bytes.push_str(behind)?;
        assert!(rt;
            gives(&rt, alloc, line, bytes.as_bytes(), *status, text)?,
            "{line} {new}"
        );
    }
    Ok(())
}
