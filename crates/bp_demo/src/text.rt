//! The text of a demo.
ghost use Rattle.std.specs.Prelude.{◌≡◌, ◌<◌, ◌≤◌, IfOk};
ghost use Rattle.bp_text.specs.Lines.{text_of};
ghost use Rattle.bp_demo.specs.Demos.{IsDemo, demo_lines};

use crate::summary::{Summary, sum_up};
use bp_problem_house::house_of_problem;
use bp_script::{SEEDS, generate};
use bp_text::{push_line, push_wide_line};
use bp_types::Memory;
use bp_types::limits::{MOST_NIGHTS, MOST_ROOMS, MOST_STAYS};
use std::alloc::{AllocError, Global};
use std::marker::Model;

/// The text of a demo.
///
/// Contracts see its bytes.
#[derive(Debug, Drop)]
pub struct DemoText {
    text: Vec<u8>,
}

impl Model for DemoText {
    ghost use Rattle.std.specs.Prelude.{ℕ, List};

    ghost Value = { List ℕ };

    ghost view = { λ d. d.text.items };
}

impl DemoText {
    /// The text, whose lines each end with a line feed.
    pub fn text(&self) -> &[u8]
        ensures { result.now ≡ self.now }
    {
        &self.text
    }
}

/// Makes a hotel of a seed, so many nights of so many rooms, and so many stays, and books each stay on it once. Its
/// text is the same at each call with the same numbers. The one error is `Memory`.
pub fn demo(
    alloc: Global,
    seed: u64,
    nights: u32,
    rooms: u64,
    stays: u32,
) -> Result<DemoText, Memory>
    requires seed { seed < SEEDS }
    requires nights { (1 ≤ nights) × (nights ≤ MOST_NIGHTS) }
    requires rooms { rooms ≤ MOST_ROOMS }
    requires stays { stays ≤ MOST_STAYS }
    ensures { IfOk result (IsDemo seed nights rooms stays) }
{
    let problem = generate(alloc, seed, nights, rooms, stays)?;
    let _limits = problem.nights();
    let house = house_of_problem(alloc, &problem)?;
    let summary = sum_up(alloc, house)?;
    Ok(text_of(alloc, seed, nights, rooms, stays, &summary)?)
}

/// The lines of a demo: the four numbers, and what its bookings come to.
fn text_of(
    alloc: Global,
    seed: u64,
    nights: u32,
    rooms: u64,
    stays: u32,
    summary: &Summary,
) -> Result<DemoText, AllocError>
    ensures { IfOk result (λ d. d ≡ text_of (demo_lines seed nights rooms stays summary.now)) }
{
    let mut text = Vec::new(alloc);
    push_line(
        &mut text,
        b"demo",
        &[seed, u64::from(nights), rooms, u64::from(stays)],
    )?;
    push_wide_line(&mut text, b"value", summary.value)?;
    push_line(&mut text, b"prices", &[summary.prices])?;
    push_line(&mut text, b"accepted", &[summary.counts.accepted])?;
    push_line(&mut text, b"toolow", &[summary.counts.too_low])?;
    push_line(&mut text, b"noroom", &[summary.counts.no_room])?;
    push_wide_line(&mut text, b"closing", summary.closing)?;
    Ok(DemoText { text })
}
