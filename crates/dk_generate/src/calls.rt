// The calls that work on the stack.
ghost use Rattle.std.specs.Prelude.{◌≡◌, ◌≤◌, ◌<◌};
ghost use Rattle.dk_generate.specs.Calls.{IsAllowed, after_call, drawn_call, draws_after, is_push, next_turn};

use crate::draws::{drawn_number, next_state};

/// How many items the stack has room for.
pub(crate) const ROOM: usize = 8;

/// A stack: so many items from the front lie on it, and the rest are left from earlier.
#[derive(Clone, Copy)]
pub(crate) struct Stack {
    pub(crate) height: usize,
    pub(crate) items: [u8; ROOM],
}

/// A call.
#[derive(Clone, Copy)]
pub(crate) enum Call {
    /// This item is put on the stack.
    Push(u8),
    /// The last item is taken.
    Pop,
}

/// The stack, and the state of the draws.
#[derive(Clone, Copy)]
pub(crate) struct Turn {
    pub(crate) draws: u64,
    pub(crate) stack: Stack,
}

// Whether the next call is a push, where this number was drawn.
fn is_push(height: usize, number: u64) -> bool
    ensures { result ≡ is_push height number }
{
    height == 0 || height < ROOM && number % 2 == 0
}

/// Draws the call that comes next.
pub(crate) fn drawn_call(turn: Turn) -> Call
    requires { turn.stack.height ≤ 8 }
    ensures call { result ≡ drawn_call turn }
    ensures allowed { IsAllowed turn.stack result }
{
    let state = next_state(turn.draws);
    if is_push(turn.stack.height, drawn_number(state)) {
        Call::Push((drawn_number(next_state(state)) % 100) as u8)
    } else {
        Call::Pop
    }
}

fn draws_after(draws: u64, call: Call) -> u64
    ensures { result ≡ draws_after draws call }
{
    match call {
        Call::Push(_) => next_state(next_state(draws)),
        Call::Pop => next_state(draws),
    }
}

/// The stack behind the call.
pub(crate) fn after_call(stack: Stack, call: Call) -> Stack
    requires { IsAllowed stack call }
    ensures { result ≡ after_call stack call }
{
    match call {
        Call::Push(item) => {
            let mut items = stack.items;
            items[stack.height] = item;
            Stack {
                height: stack.height + 1,
                items,
            }
        }
        Call::Pop => {
            let items = stack.items;
            Stack {
                height: stack.height - 1,
                items,
            }
        }
    }
}

/// What the call leaves.
pub(crate) fn next_turn(turn: Turn, call: Call) -> Turn
    requires allowed { IsAllowed turn.stack call }
    requires call { call ≡ drawn_call turn }
    ensures { result ≡ next_turn turn }
{
    Turn {
        draws: draws_after(turn.draws, call),
        stack: after_call(turn.stack, call),
    }
}
