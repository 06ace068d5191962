//! Lists that are read and lists that are refused.
use super::*;
use bp_text::TextError;
use std::alloc::{AllocError, Global};
use std::test::Fail;

/// The list of two hotels whose files have these names.
const TWO: &str = "portfolio 1
hotels 2
lindenhof.toml stays.csv forecast.csv bookings.csv script.csv
~/sea/hotel ! \"b\" c- d,e
end
";

/// Each text that is refused, and why.
fn refused() -> &'static [(&'static str, TextError)] {
    &[
        ("", TextError::TooShort),
        ("portfolio 1", TextError::TooShort),
        ("portfolio 2\n", TextError::BadLine { line: 1 }),
        ("portfolio 1 \n", TextError::BadLine { line: 1 }),
        ("portfolio 1\nhotels\n", TextError::BadLine { line: 2 }),
        ("portfolio 1\nhotels 01\n", TextError::BadLine { line: 2 }),
        ("portfolio 1\nhotels 0\n", TextError::Limit { line: 2 }),
        ("portfolio 1\nhotels 9\n", TextError::Limit { line: 2 }),
        (
            "portfolio 1\nhotels 18446744073709551617\n",
            TextError::Limit { line: 2 },
        ),
        ("portfolio 1\nhotels 1\n", TextError::TooShort),
        (
            "portfolio 1\nhotels 1\nend\n",
            TextError::BadLine { line: 3 },
        ),
        (
            "portfolio 1\nhotels 1\nA B C D\n",
            TextError::BadLine { line: 3 },
        ),
        (
            "portfolio 1\nhotels 1\nA B C D E F\n",
            TextError::BadLine { line: 3 },
        ),
        (
            "portfolio 1\nhotels 1\nA B C D \n",
            TextError::BadLine { line: 3 },
        ),
        (
            "portfolio 1\nhotels 1\nA  B C D E\n",
            TextError::BadLine { line: 3 },
        ),
        (
            "portfolio 1\nhotels 1\nA B C D -E\n",
            TextError::BadLine { line: 3 },
        ),
        (
            "portfolio 1\nhotels 1\nA B\tC D E F\n",
            TextError::BadLine { line: 3 },
        ),
        (
            "portfolio 1\nhotels 1\nA B C D \u{e9}\n",
            TextError::BadLine { line: 3 },
        ),
        (
            "portfolio 1\nhotels 1\nA B C D \u{7f}\n",
            TextError::BadLine { line: 3 },
        ),
        (
            "portfolio 1\nhotels 1\nA B C D E\r\n",
            TextError::BadLine { line: 3 },
        ),
        (
            "portfolio 1\nhotels 2\nA B C D E\nend\n",
            TextError::BadLine { line: 4 },
        ),
        (
            "portfolio 1\nhotels 1\nA B C D E\nA B C D E\n",
            TextError::BadLine { line: 4 },
        ),
        ("portfolio 1\nhotels 1\nA B C D E\nend", TextError::TooShort),
        (
            "portfolio 1\nhotels 1\nA B C D E\nend\n\n",
            TextError::Trailing { line: 5 },
        ),
    ]
}

#[test]
fn a_list_is_refused_at_its_first_wrong_line(rt: HostRuntime) -> Result<(), Fail> {
    for (text, error) in refused() {
        let Err(found) = read_list(rt.alloc(), text.as_bytes()) else {
            return Err((*text).into());
        };
        assert!(rt; found == *error, "{text}");
    }
    Ok(())
}

#[test]
fn the_names_of_two_hotels(rt: HostRuntime) -> Result<(), Fail> {
    let Ok(hotels) = read_list(rt.alloc(), TWO.as_bytes()) else {
        return Err("refused".into());
    };
    let [first, second] = hotels.as_slice() else {
        return Err("another number of hotels".into());
    };
    let names = [
        "lindenhof.toml",
        "stays.csv",
        "forecast.csv",
        "bookings.csv",
        "script.csv",
    ];
    let others = ["~/sea/hotel", "!", "\"b\"", "c-", "d,e"];
    for file in 0..5 {
        assert!(rt;
            first.name(file) == names[file as usize],
            "{}",
            names[file as usize]
        );
        assert!(rt;
            second.name(file) == others[file as usize],
            "{}",
            others[file as usize]
        );
    }
    Ok(())
}

/// The list of so many hotels, the first name of which has so many bytes.
fn list_of(alloc: Global, hotels: u32, bytes: u32) -> Result<String, AllocError> {
    let mut text = format!(in alloc; "portfolio 1\nhotels {hotels}\n")?;
    for _ in 0..hotels {
        for _ in 0..bytes {
            text.push_str("A")?;
        }
        text.push_str(" B C D E\n")?;
    }
    text.push_str("end\n")?;
    Ok(text)
}

#[test]
fn eight_hotels_and_names_of_200_bytes_and_no_more(rt: HostRuntime) -> Result<(), Fail> {
    let alloc = rt.alloc();
    let Ok(hotels) = read_list(alloc, list_of(alloc, 8, 200)?.as_bytes()) else {
        return Err("refused".into());
    };
    assert!(rt; hotels.len() == 8);
    let nine = read_list(alloc, list_of(alloc, 9, 1)?.as_bytes());
    assert!(rt; matches!(nine, Err(TextError::Limit { line: 2 })));
    let long = read_list(alloc, list_of(alloc, 1, 201)?.as_bytes());
    assert!(rt; matches!(long, Err(TextError::BadLine { line: 3 })));
    Ok(())
}
