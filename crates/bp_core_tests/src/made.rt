//! A list of calls that is made at once.
ghost use Rattle.std.specs.Prelude.{◌≡◌, None};

use bp_board::Board;
use bp_core::{Answer, Book, Call, Made, Reply, make_all};
use bp_types::{Certificate, Command, House, Limits};
use std::alloc::Global;
use std::sync::Arc;
use std::test::Fail;

/// The book of a house with one night, no stays, and one command to log.
fn small_book(alloc: Global) -> Result<Book, Fail> {
    let limits = Limits {
        stale_after: 1,
        entries: 1,
        publications: 1,
        unit: 1,
    };
    let rooms = vec![in alloc; 1]?;
    let sold = vec![in alloc; 0]?;
    let house = House::new(rooms, sold, Vec::new(alloc), limits)?;
    let certificate = Certificate {
        value: 0,
        sell: Vec::new(alloc),
        prices: vec![in alloc; 0]?,
    };
    let board = Board::new(alloc, 0, certificate)?;
    let board = Arc::new(alloc, board)?;
    let book = Book::new(alloc, house, board)?;
    Ok(book)
}

/// The opener gives up a booking that it never made.
fn cancel() -> Made
    ensures { result ≡ record { caller = 0; call = Call.Do (Command.Cancel 1) None } }
{
    Made {
        caller: 0,
        call: Call::Do {
            command: Command::Cancel { nth: 1 },
            quoted: None,
        },
    }
}

#[test]
fn each_call_finds_what_those_before_it_left(rt: HostRuntime) -> Result<(), Fail> {
    let mut book = small_book(rt.alloc())?;
    let calls = Vec::from_array(rt.alloc(), [cancel(), cancel()])?;
    let answers = make_all(rt.alloc(), &mut book, calls)?;
    let mut answers = answers.iter();
    assert_eq!(rt; answers.next(), Some(&Answer::Logged(Reply::NotBooked)));
    assert_eq!(rt; answers.next(), Some(&Answer::HistoryFull));
    assert_eq!(rt; answers.next(), None);
    assert_eq!(rt; book.length(), 2);
    Ok(())
}
