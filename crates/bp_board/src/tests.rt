//! Tests: the price of each span of three nights, and that a board crosses threads.
use crate::Board;
use bp_types::{Certificate, Span};
use std::test::Fail;

fn crosses_threads<T: Send + Sync>(_value: &T) {}

#[test]
fn the_price_of_each_span(rt: HostRuntime) -> Result<(), Fail> {
    let certificate = Certificate {
        value: 250,
        sell: vec![in rt.alloc(); 0, 1, 1, 1]?,
        prices: vec![in rt.alloc(); 0, 100, 40]?,
    };
    let board = Board::new(rt.alloc(), 4, certificate)?;
    let sums = [
        (0, 1, 0),
        (0, 2, 100),
        (0, 3, 140),
        (1, 2, 100),
        (1, 3, 140),
        (2, 3, 40),
    ];
    for (from, to, sum) in sums {
        if from < to && to <= 3 {
            assert_eq!(rt; board.price(Span { from, to }), sum);
        }
    }
    for (night, sum) in [(0, 140), (1, 140), (2, 40), (3, 0)] {
        if night <= board.nights() {
            assert_eq!(rt; board.sum_from(night), sum);
        }
    }
    assert_eq!(rt; board.nights(), 3);
    assert_eq!(rt; board.position(), 4);
    assert_eq!(rt; board.certificate().value, 250);
    crosses_threads(&board);
    Ok(())
}
