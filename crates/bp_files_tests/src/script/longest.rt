//! The longest script, and a command too many.
use super::HEADER;
use crate::three_nights::{hotel, refusal, stays};
use bp_script::read_script;
use bp_stayfile::TableRefusal;
use std::alloc::{AllocError, Global};
use std::test::Fail;

/// Two hundred thousand bookings, by 32 sessions in turn.
fn the_longest(alloc: Global) -> Result<String, AllocError> {
    let mut text = String::from_str(alloc, HEADER)?;
    for record in 0..200_000 {
        let line = format!(in alloc; "{},book,P0,,,\n", record % 32 + 1)?;
        text.push_str(line.as_str())?;
    }
    Ok(text)
}

#[test]
fn two_hundred_thousand_commands_and_one_more(rt: HostRuntime) -> Result<(), Fail> {
    let hotel = hotel(rt.alloc())?;
    let stays = stays(rt.alloc(), &hotel)?;
    let mut text = the_longest(rt.alloc())?;
    let script = read_script(rt.alloc(), &hotel, stays.codes(), text.as_bytes())?;
    assert_eq!(rt; script.len(), 32);
    for commands in &script {
        assert_eq!(rt; commands.list().len(), 6_250);
    }
    text.push_str("1,group,2025-07-04,1,1,1\n")?;
    let read = read_script(rt.alloc(), &hotel, stays.codes(), text.as_bytes());
    assert_eq!(rt;
        refusal(read),
        Some(TableRefusal::Outside { line: 200_002 })
    );
    let mut text = the_longest(rt.alloc())?;
    text.push_str("32,cancel,1,,,\n")?;
    let read = read_script(rt.alloc(), &hotel, stays.codes(), text.as_bytes());
    assert_eq!(rt; refusal(read), Some(TableRefusal::Limit { line: 200_002 }));
    Ok(())
}
