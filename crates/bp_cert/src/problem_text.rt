//! The text of a problem, read.
ghost use Rattle.std.specs.Prelude.{◌≡◌, ◌≤◌, length, map, codes, MatchResult, Err};
ghost use Rattle.bp_types.specs.Program.{Program};
ghost use Rattle.bp_text.specs.Reading.{IsReading, IsText, GivesLines, seen_as};
ghost use Rattle.bp_text.specs.Forms.{IsLine};
ghost use Rattle.bp_cert.specs.Texts.{
  problem_lines,
  head_lines,
  stay_line,
  stay_numbers,
  IsProblem,
  IsHead,
  IsStayWithin,
  AreStaysWithin,
};
ghost use Rattle.bp_text.specs.Lines.{Given};

use bp_text::{Bounds, Lines, TextError, at_end, exact_line, number_line, word_line};
use bp_types::limits::{MOST_FORECAST, MOST_NIGHTS, MOST_RATE, MOST_ROOMS, MOST_STAYS};
use bp_types::{Instance, Span, Stay};
use std::alloc::Global;

/// What stands before the stays of a problem: its rooms by night, and how many stays follow.
#[derive(Drop)]
struct Head {
    rooms: Vec<u64>,
    stays: u64,
}

/// Reads the lines before the stays.
fn read_head(alloc: Global, lines: &mut Lines<'_>) -> Result<Head, TextError>
    ensures { MatchResult result
        (λ h. IsHead h.rooms.items h.stays ×
        GivesLines lines.old lines.new (head_lines h.rooms.items h.stays) lines.new.rest)
        (λ e. IsReading problem_lines IsProblem lines.old lines.new (Err e)) }
{
    let mut rooms = Vec::new(alloc);
    word_line(lines, b"problem 1")?;
    let nights = number_line(lines, b"nights", 1, MOST_NIGHTS as u64)?;
    let bounds = Bounds {
        most: nights as usize,
        greatest: MOST_ROOMS,
    };
    exact_line(lines, b"rooms", bounds, &mut rooms)?;
    let stays = number_line(lines, b"stays", 0, MOST_STAYS as u64)?;
    Ok(Head { rooms, stays })
}

/// Reads the line of one stay.
fn next_stay(lines: &mut Lines<'_>, nights: u32, numbers: &mut Vec<u64>) -> Result<Stay, TextError>
    requires { nights ≤ MOST_NIGHTS }
    ensures { IsLine (codes "stay") (λ ns. length ns ≡ 4) (IsStayWithin nights) lines.old lines.new (seen_as stay_numbers result) }
{
    let bounds = Bounds {
        most: 4,
        greatest: MOST_RATE,
    };
    exact_line(lines, b"stay", bounds, numbers)?;
    let from = numbers[0];
    let to = numbers[1];
    let rate = numbers[2];
    let forecast = numbers[3];
    if from >= to || to > u64::from(nights) || rate < 1 || forecast > MOST_FORECAST {
        return Err(TextError::Limit {
            line: lines.given(),
        });
    }
    Ok(Stay {
        span: Span {
            from: from as u32,
            to: to as u32,
        },
        rate,
        forecast,
    })
}

/// Reads the lines of so many stays.
fn read_stays(
    alloc: Global,
    lines: &mut Lines<'_>,
    rooms: &[u64],
    count: u64,
) -> Result<Vec<Stay>, TextError>
    requires { IsHead rooms.now count }
    ensures { MatchResult result
        (λ ss. (length ss.items ≡ count) × AreStaysWithin (length rooms.now) ss.items ×
        GivesLines lines.old lines.new (map stay_line ss.items) lines.new.rest)
        (λ e. (start : Given) → GivesLines start lines.old (head_lines rooms.now count) lines.old.rest →
        IsReading problem_lines IsProblem start lines.new (Err e)) }
{
    let nights = rooms.len() as u32;
    let mut stays = Vec::new(alloc);
    let mut numbers = Vec::new(alloc);
    for _ in 0..count {
        let stay = next_stay(lines, nights, &mut numbers)?;
        stays.push(stay)?;
    }
    Ok(stays)
}

/// Reads all lines of a problem.
fn read_lines(alloc: Global, lines: &mut Lines<'_>) -> Result<Instance, TextError>
    ensures { IsReading problem_lines IsProblem lines.old lines.new result }
{
    let head = read_head(alloc, lines)?;
    let stays = read_stays(alloc, lines, &head.rooms, head.stays)?;
    word_line(lines, b"end")?;
    Ok(Instance::within(head.rooms, stays))
}

/// Reads the text of a problem, or says which line of it is the first wrong one. A night of the text has at most 10,000
/// rooms, fewer than an instance may have. It takes the time of the bytes.
pub fn read_problem(alloc: Global, bytes: &[u8]) -> Result<Instance, TextError>
    ensures { IsText problem_lines IsProblem bytes.now result }
{
    let mut lines = Lines::new(bytes);
    let instance = read_lines(alloc, &mut lines)?;
    at_end(&lines)?;
    Ok(instance)
}
