// Numbers without a pattern.
ghost use Rattle.std.specs.Prelude.{◌<◌};

/// Numbers without a pattern, the same ones in each run.
#[derive(Drop)]
pub struct Noise {
    state: u64,
}

impl Noise {
    /// The first of them are to come.
    pub fn new() -> Noise {
        Noise { state: 1 }
    }

    /// Draws the next number.
    pub fn next(&mut self) -> u64 {
        self.state ^= self.state << 13;
        self.state ^= self.state >> 7;
        self.state ^= self.state << 17;
        self.state
    }

    /// A number below the bound.
    pub fn below(&mut self, bound: u64) -> u64
        requires { 0 < bound }
        ensures { result < bound }
    {
        (self.next() >> 8) % bound
    }
}
