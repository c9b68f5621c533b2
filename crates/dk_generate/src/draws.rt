// Draws of numbers.
ghost use Rattle.std.specs.Prelude.{◌≡◌};
ghost use Rattle.dk_generate.specs.Draws.{drawn_number, next_state};

const FACTOR: u64 = 6364136223846793005;

const STEP: u64 = 1442695040888963407;

/// The state behind a draw.
pub(crate) fn next_state(state: u64) -> u64
    ensures { result ≡ next_state state }
{
    state.wrapping_mul(FACTOR).wrapping_add(STEP)
}

/// The number that was drawn when the draw ended in this state. It is below 2^31.
pub(crate) fn drawn_number(state: u64) -> u64
    ensures { result ≡ drawn_number state }
{
    state / (1 << 33)
}
