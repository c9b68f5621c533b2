// The generated input.
ghost use Rattle.std.specs.Prelude.{◌≡◌, IfOk};
ghost use Rattle.dk_generate.specs.Generated.{first_turn, generated_text};

use crate::calls::{ROOM, Stack, Turn, drawn_call, next_turn};
use crate::records::push_call;
use crate::texts::declarations;
use dk_base::{NoMemory, Text};
use std::alloc::Global;

/// How many calls there are, of two records each.
const CALLS: u64 = 10_000;

fn first_turn(n: u64) -> Turn
    ensures { result ≡ first_turn n }
{
    Turn {
        draws: n,
        stack: Stack {
            height: 0,
            items: [0; ROOM],
        },
    }
}

/// The generated input: declarations of a stack and 20,000 records of it, made from the number.
pub fn generate(alloc: Global, n: u64) -> Result<Text, NoMemory>
    ensures { IfOk result (λ text. text ≡ generated_text n) }
{
    let mut text = Text::from_slice(alloc, declarations().as_bytes())?;
    let mut turn = first_turn(n);
    for done in 0..CALLS {
        let call = drawn_call(turn);
        push_call(&mut text, done + 1, &turn.stack, call)?;
        turn = next_turn(turn, call);
    }
    Ok(text)
}
