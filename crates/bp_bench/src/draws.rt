//! Numbers drawn by two generators, which the scripts and the programs in C++ have too.
ghost use Rattle.std.specs.Prelude.{◌<◌};

/// The generator of Park and Miller, of which the scripts make the same problems.
#[derive(Drop)]
pub(crate) struct Draws {
    pub(crate) last: u64,
}

impl Draws {
    /// The next number below a limit.
    pub(crate) fn below(&mut self, limit: u64) -> u64
        requires { 0 < limit }
        ensures { result < limit }
    {
        self.last = self.last.wrapping_mul(16807) % 2147483647;
        self.last % limit
    }
}

/// The linear congruential generator of Knuth, of which the programs in C++ make the same calls.
#[derive(Drop)]
pub(crate) struct WideDraws {
    pub(crate) state: u64,
}

impl WideDraws {
    /// The next number below a limit.
    pub(crate) fn below(&mut self, limit: u64) -> u64
        requires { 0 < limit }
        ensures { result < limit }
    {
        let next = self.state.wrapping_mul(6364136223846793005);
        self.state = next.wrapping_add(1442695040888963407);
        (self.state >> 33) % limit
    }
}
