//! Problems and certificates: each refusal at its line, what is written, and each verdict.
use crate::lines::{text_of, text_with};
use bp_cert::{TextError, Verdict, check, read_certificate, read_problem, write_certificate};
use bp_edges::MemorySink;
use bp_types::{Certificate, Instance};
use std::alloc::{AllocError, Global};
use std::test::Fail;

/// The lines of a problem of three nights and four stays.
const PROBLEM: [&str; 9] = [
    "problem 1",
    "nights 3",
    "rooms 2 1 2",
    "stays 4",
    "stay 0 2 100 3",
    "stay 1 3 150 1",
    "stay 0 1 60 1",
    "stay 2 3 40 5",
    "end",
];

/// The lines of its certificate.
const CERTIFICATE: [&str; 5] = [
    "certificate 1",
    "value 250",
    "sell 0 1 1 1",
    "prices 0 100 40",
    "end",
];

/// A line in place of another, and what is refused then.
const PROBLEMS: [(usize, &str, Option<TextError>); 31] = [
    (1, "problem 2", Some(TextError::BadLine { line: 1 })),
    (1, "problem  1", Some(TextError::BadLine { line: 1 })),
    (2, "nights 03", Some(TextError::BadLine { line: 2 })),
    (2, "nights ", Some(TextError::BadLine { line: 2 })),
    (2, "nights", Some(TextError::BadLine { line: 2 })),
    (2, "nights 3 ", Some(TextError::BadLine { line: 2 })),
    (2, "nights 0", Some(TextError::Limit { line: 2 })),
    (2, "nights 401", Some(TextError::Limit { line: 2 })),
    (2, "nights 400", Some(TextError::BadLine { line: 3 })),
    (3, "rooms 2 1", Some(TextError::BadLine { line: 3 })),
    (3, "rooms 2 1 2 2", Some(TextError::BadLine { line: 3 })),
    (3, "rooms 2  1 2", Some(TextError::BadLine { line: 3 })),
    (3, "rooms 0 10000 2", None),
    (3, "rooms 2 10001 2", Some(TextError::Limit { line: 3 })),
    (4, "stays 4001", Some(TextError::Limit { line: 4 })),
    (4, "stays 4000", Some(TextError::BadLine { line: 9 })),
    (4, "stays 3", Some(TextError::BadLine { line: 8 })),
    (5, "stay 0 2 100", Some(TextError::BadLine { line: 5 })),
    (5, "stay 0 2 100 3 4", Some(TextError::BadLine { line: 5 })),
    (5, "stay 0 3 1000000000 1000000", None),
    (5, "stay 2 3 1 0", None),
    (5, "stay 0 0 100 3", Some(TextError::Limit { line: 5 })),
    (5, "stay 2 1 100 3", Some(TextError::Limit { line: 5 })),
    (5, "stay 0 4 100 3", Some(TextError::Limit { line: 5 })),
    (5, "stay 0 2 0 3", Some(TextError::Limit { line: 5 })),
    (
        5,
        "stay 0 2 1000000001 3",
        Some(TextError::Limit { line: 5 }),
    ),
    (
        5,
        "stay 0 2 100 1000001",
        Some(TextError::Limit { line: 5 }),
    ),
    (
        5,
        "stay 0 2 100 340282366920938463463374607431768211456",
        Some(TextError::Limit { line: 5 }),
    ),
    (8, "stay 2 3 40 x", Some(TextError::BadLine { line: 8 })),
    (9, "End", Some(TextError::BadLine { line: 9 })),
    (9, "end ", Some(TextError::BadLine { line: 9 })),
];

/// A line in place of another, and what is refused then.
const CERTIFICATES: [(usize, &str, Option<TextError>); 16] = [
    (1, "certificate 2", Some(TextError::BadLine { line: 1 })),
    (2, "value", Some(TextError::BadLine { line: 2 })),
    (2, "value 0250", Some(TextError::BadLine { line: 2 })),
    (2, "value 250 0", Some(TextError::BadLine { line: 2 })),
    (2, "value 1000000000000000000000000000000", None),
    (
        2,
        "value 1000000000000000000000000000001",
        Some(TextError::Limit { line: 2 }),
    ),
    (
        2,
        "value 340282366920938463463374607431768211456",
        Some(TextError::Limit { line: 2 }),
    ),
    (3, "sell ", Some(TextError::BadLine { line: 3 })),
    (3, "sell", None),
    (3, "sell 18446744073709551615", None),
    (
        3,
        "sell 0 18446744073709551616",
        Some(TextError::Limit { line: 3 }),
    ),
    (4, "price 0 100 40", Some(TextError::BadLine { line: 4 })),
    (4, "prices 0 -1 40", Some(TextError::BadLine { line: 4 })),
    (4, "prices", None),
    (4, "prices 18446744073709551615", None),
    (5, "end 1", Some(TextError::BadLine { line: 5 })),
];

#[test]
fn a_problem_is_refused_at_its_first_wrong_line(rt: HostRuntime) -> Result<(), Fail> {
    let alloc = rt.alloc();
    for (place, line, want) in &PROBLEMS {
        let text = text_with(alloc, &PROBLEM, *place, line)?;
        assert!(rt; read_problem(alloc, &text).err() == *want, "{line}");
    }
    Ok(())
}

#[test]
fn a_certificate_is_refused_at_its_first_wrong_line(rt: HostRuntime) -> Result<(), Fail> {
    let alloc = rt.alloc();
    for (place, line, want) in &CERTIFICATES {
        let text = text_with(alloc, &CERTIFICATE, *place, line)?;
        assert!(rt; read_certificate(alloc, &text).err() == *want, "{line}");
    }
    Ok(())
}

#[test]
fn a_text_that_is_cut_is_too_short_and_one_byte_more_trails(rt: HostRuntime) -> Result<(), Fail> {
    let alloc = rt.alloc();
    let mut problem = text_of(alloc, &PROBLEM)?;
    for length in 0..problem.len() {
        let (cut, _) = problem.split_at(length);
        assert!(rt;
            read_problem(alloc, cut).err() == Some(TextError::TooShort),
            "{length}"
        );
    }
    problem.push(b' ')?;
    assert!(rt; read_problem(alloc, &problem).err() == Some(TextError::Trailing { line: 10 }));
    let mut certificate = text_of(alloc, &CERTIFICATE)?;
    for length in 0..certificate.len() {
        let (cut, _) = certificate.split_at(length);
        assert!(rt;
            read_certificate(alloc, cut).err() == Some(TextError::TooShort),
            "{length}"
        );
    }
    certificate.push(b'\n')?;
    assert!(rt;
        read_certificate(alloc, &certificate).err() == Some(TextError::Trailing { line: 6 })
    );
    Ok(())
}

/// A word, and so many zeros behind it.
fn zeros(alloc: Global, word: &str, count: usize) -> Result<String, AllocError> {
    let mut line = String::from_str(alloc, word)?;
    for _ in 0..count {
        line.push_str(" 0")?;
    }
    Ok(line)
}

/// The place of a line of a certificate, its word, and the most numbers that it may have.
const COUNTS: [(usize, &str, usize); 2] = [(3, "sell", 4_000), (4, "prices", 400)];

#[test]
fn numbers_on_a_line_are_counted(rt: HostRuntime) -> Result<(), Fail> {
    let alloc = rt.alloc();
    for (place, word, most) in &COUNTS {
        let line = zeros(alloc, word, *most)?;
        let text = text_with(alloc, &CERTIFICATE, *place, line.as_str())?;
        assert!(rt; read_certificate(alloc, &text).is_ok(), "{word}");
        let line = zeros(alloc, word, most.wrapping_add(1))?;
        let text = text_with(alloc, &CERTIFICATE, *place, line.as_str())?;
        let want = TextError::Limit {
            line: *place as u64,
        };
        assert!(rt;
            read_certificate(alloc, &text).err() == Some(want),
            "{word}"
        );
    }
    Ok(())
}

#[test]
fn a_certificate_is_written_as_it_was_read(rt: HostRuntime) -> Result<(), Fail> {
    let alloc = rt.alloc();
    let text = text_of(alloc, &CERTIFICATE)?;
    let certificate = read_certificate(alloc, &text)?;
    let mut out = MemorySink::new(Vec::new(alloc));
    write_certificate(alloc, &certificate, &mut out)?;
    assert!(rt; out.written() == text.as_slice());
    Ok(())
}

#[test]
fn a_certificate_without_stays_is_written_without_numbers(rt: HostRuntime) -> Result<(), Fail> {
    let alloc = rt.alloc();
    let nothing = Certificate {
        value: 0,
        sell: Vec::new(alloc),
        prices: Vec::new(alloc),
    };
    let mut out = MemorySink::new(Vec::new(alloc));
    write_certificate(alloc, &nothing, &mut out)?;
    assert!(rt; out.written() == b"certificate 1\nvalue 0\nsell\nprices\nend\n".as_slice());
    Ok(())
}

/// A value, an allocation and prices for the problem of three nights, and what is found of them.
const VERDICTS: [(u128, &[u64], &[u64], Verdict); 10] = [
    (
        250,
        &[0, 1, 1, 1],
        &[0, 100, 40],
        Verdict::Optimal { value: 250 },
    ),
    (
        251,
        &[0, 1, 1, 1],
        &[0, 100, 40],
        Verdict::Misvalued { worth: 250 },
    ),
    (
        250,
        &[0, 1, 1, 1],
        &[0, 100, 60],
        Verdict::Gap {
            worth: 250,
            bound: 280,
        },
    ),
    (
        250,
        &[1, 1, 0, 0],
        &[0, 100, 40],
        Verdict::Overfull { night: 1, load: 2 },
    ),
    (
        250,
        &[0, 2, 2, 1],
        &[0, 100, 40],
        Verdict::AboveForecast { stay: 1 },
    ),
    (
        250,
        &[0, 1, 1, 1],
        &[0, 100, 1_000_000_000],
        Verdict::Gap {
            worth: 250,
            bound: 2_000_000_160,
        },
    ),
    (
        250,
        &[0, 9, 1, 1],
        &[0, 1_000_000_001, 1_000_000_001],
        Verdict::PriceTooGreat { night: 1 },
    ),
    (250, &[0, 1, 1], &[0, 100, 40], Verdict::WrongLength),
    (250, &[0, 1, 1, 1], &[0, 100, 40, 0], Verdict::WrongLength),
    (0, &[], &[], Verdict::WrongLength),
];

/// The verdict on a certificate of these numbers.
fn verdict(
    alloc: Global,
    instance: &Instance,
    value: u128,
    sell: &[u64],
    prices: &[u64],
) -> Result<Verdict, AllocError> {
    let certificate = Certificate {
        value,
        sell: sell.to_vec(alloc)?,
        prices: prices.to_vec(alloc)?,
    };
    Ok(check(instance, &certificate))
}

#[test]
fn the_first_fault_of_a_certificate_is_found(rt: HostRuntime) -> Result<(), Fail> {
    let alloc = rt.alloc();
    let instance = read_problem(alloc, &text_of(alloc, &PROBLEM)?)?;
    for (value, sell, prices, want) in &VERDICTS {
        let got = verdict(alloc, &instance, *value, sell, prices)?;
        assert!(rt; got == *want, "{got:?}");
    }
    Ok(())
}
