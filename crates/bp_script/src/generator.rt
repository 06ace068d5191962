//! A problem made of four numbers, the same at each call.
ghost use Rattle.std.specs.Prelude.{◌≡◌, ◌<◌, ◌≤◌, ◌%◌, map, All, IfOk};
ghost use Rattle.std.specs.List.{range_with_len};
ghost use Rattle.bp_types.specs.Spans.{IsSpanWithin};
ghost use Rattle.bp_script.specs.Demo.{next, drawn_stay, stay_drawn, demo_of, IsSmallStay};

use bp_types::limits::{MOST_NIGHTS, MOST_ROOMS, MOST_STAYS};
use bp_types::{Instance, Memory, Span, Stay};
use std::alloc::Global;
use std::marker::Model;

/// Seeds are below this number: they have nine digits at most.
pub const SEEDS: u64 = 1_000_000_000;

/// The factor of a draw: with its modulus, the minimal standard generator of Park and Miller, 1988.
const FACTOR: u64 = 16_807;

/// The modulus of a draw: the greatest prime of 31 bits.
const MODULUS: u64 = 2_147_483_647;

/// The longest stay, in nights.
const LONGEST: u32 = 7;

/// The state of the draws. Contracts see that number.
#[derive(Drop)]
struct Draws {
    state: u64,
}

impl Model for Draws {
    ghost use Rattle.std.specs.Prelude.{ℕ, ◌<◌};

    ghost Value = { ℕ };

    ghost view = { λ d. d.state };

    ghost invariant = { λ d. d.state < 2147483647 };
}

impl Draws {
    /// One draw, of a number below this one.
    fn draw(&mut self, below: u64) -> u64
        requires { 1 ≤ below }
        ensures state { self.new ≡ next self.old }
        ensures drawn { result ≡ next self.old % below }
        ensures less { result < below }
    {
        self.state = FACTOR * self.state % MODULUS;
        self.state % below
    }

    /// The stay of the next four draws, in a hotel of so many nights.
    fn stay(&mut self, nights: u32) -> Stay
        requires { (1 ≤ nights) × (nights ≤ MOST_NIGHTS) }
        ensures state { self.new ≡ next (next (next (next self.old))) }
        ensures stay { result ≡ drawn_stay nights self.old }
        ensures small { IsSmallStay nights result }
    {
        let from = self.draw(u64::from(nights)) as u32;
        let length = 1 + self.draw(u64::from(LONGEST.min(nights - from))) as u32;
        let rate = u64::from(length) * (5_000 + self.draw(10_000));
        let forecast = self.draw(20);
        Stay {
            span: Span {
                from,
                to: from + length,
            },
            rate,
            forecast,
        }
    }
}

/// So many stays, drawn one after the other.
fn stays_drawn(alloc: Global, seed: u64, nights: u32, stays: u32) -> Result<Vec<Stay>, Memory>
    requires seed { seed < SEEDS }
    requires nights { (1 ≤ nights) × (nights ≤ MOST_NIGHTS) }
    ensures stays { IfOk result (λ v. v.items ≡ map (stay_drawn seed nights) (range_with_len 0 stays)) }
    ensures small { IfOk result (λ v. All (IsSmallStay nights) v.items) }
{
    let mut draws = Draws { state: seed + 1 };
    let mut drawn = Vec::new(alloc);
    for _number in 0..stays {
        let stay = draws.stay(nights);
        drawn.push(stay)?;
    }
    Ok(drawn)
}

/// The problem of a seed below `SEEDS`: so many nights of so many rooms, and so many stays that are drawn, of one to
/// seven nights. A room is one unit; rates are in minor units of money. Its time grows with nights plus stays, and the
/// one error is `Memory`.
pub fn generate(
    alloc: Global,
    seed: u64,
    nights: u32,
    rooms: u64,
    stays: u32,
) -> Result<Instance, Memory>
    requires seed { seed < SEEDS }
    requires nights { (1 ≤ nights) × (nights ≤ MOST_NIGHTS) }
    requires rooms { rooms ≤ MOST_ROOMS }
    requires stays { stays ≤ MOST_STAYS }
    ensures { IfOk result (λ p. p ≡ demo_of seed nights rooms stays) }
{
    let rooms = vec![in alloc; rooms; nights as usize]?;
    let stays = stays_drawn(alloc, seed, nights, stays)?;
    Ok(Instance::within(rooms, stays))
}
