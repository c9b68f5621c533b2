// Numbers without a pattern.
ghost use Rattle.std.specs.Prelude.{◌<◌};

/// Numbers without a pattern, the same ones for the same seed.
#[derive(Drop)]
pub struct Noise {
    state: u64,
}

impl Noise {
    /// Those of a seed.
    pub fn new(seed: u64) -> Noise {
        Noise { state: seed }
    }

    fn next(&mut self) -> u64 {
        self.state = self.state.wrapping_add(0x9e37_79b9_7f4a_7c15);
        let mut mixed = self.state;
        mixed = (mixed ^ (mixed >> 30)).wrapping_mul(0xbf58_476d_1ce4_e5b9);
        mixed = (mixed ^ (mixed >> 27)).wrapping_mul(0x94d0_49bb_1331_11eb);
        mixed ^ (mixed >> 31)
    }

    /// A number below the bound.
    pub fn below(&mut self, bound: u8) -> u8
        requires { 0 < bound }
        ensures { result < bound }
    {
        (self.next() % u64::from(bound)) as u8
    }
}
