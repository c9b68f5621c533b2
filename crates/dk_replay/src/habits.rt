// How the values of a set of variables are drawn.
ghost use Rattle.std.specs.Prelude.{◌<◌};

use crate::noise::Noise;

/// How the values of a set of variables are drawn.
#[derive(Clone, Copy, Drop)]
pub struct Habits {
    first: u8,
    few: u8,
    missing: u8,
    still: u8,
    alike: u8,
    ghost some: { 0 < few },
}

/// How one value is drawn.
#[derive(Clone, Copy)]
pub enum Draw {
    /// The variable is missing.
    Missing,
    /// What the variable had in the sample before.
    Still,
    /// What an earlier variable of the sample has.
    Alike,
    /// The one that the text at this place writes.
    Text(u8),
}

impl Habits {
    /// Habits without a pattern: which texts are taken and how many of them, and of 24 values about how many are missing, as before, or
    /// as another variable's.
    pub fn new(noise: &mut Noise) -> Habits {
        Habits {
            first: noise.below(10),
            few: noise.below(9) + 2,
            missing: noise.below(8).saturating_sub(4),
            still: noise.below(9),
            alike: noise.below(9),
        }
    }

    /// How the next value is drawn.
    pub fn draw(&self, noise: &mut Noise) -> Draw {
        let mut choice = noise.below(24);
        if choice < self.missing {
            return Draw::Missing;
        }
        choice -= self.missing;
        if choice < self.still {
            return Draw::Still;
        }
        choice -= self.still;
        if choice < self.alike {
            return Draw::Alike;
        }
        Draw::Text(self.first.wrapping_add(noise.below(self.few)) % 10)
    }
}
