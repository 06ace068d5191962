//! Numbers drawn by a generator that the program in C++ has too.
ghost use Rattle.std.specs.Prelude.{◌<◌};

/// The linear congruential generator of Knuth, of which the program in C++ makes the same calls.
#[derive(Drop)]
pub(crate) struct Draws {
    pub(crate) state: u64,
}

impl Draws {
    /// The next number below a limit.
    pub(crate) fn below(&mut self, limit: u32) -> u32
        requires { 0 < limit }
        ensures { result < limit }
    {
        let next = self.state.wrapping_mul(6364136223846793005);
        self.state = next.wrapping_add(1442695040888963407);
        ((self.state >> 33) % u64::from(limit)) as u32
    }
}
