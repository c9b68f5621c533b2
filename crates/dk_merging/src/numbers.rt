// The numbers of slots are within their types.
ghost use Rattle.std.specs.Prelude.{All, IsTrue};
ghost use Rattle.dk_base.specs.Numbers.{fits_i64};
ghost use Rattle.dk_merging.specs.Engines.{IsSound};
ghost use Rattle.dk_merging.specs.Numbers.{AreNumbersWithin, AreWithin};
ghost use Rattle.dk_state.specs.Fitting.{FitsSlot};

use crate::engines::tell_sound;
use dk_engine::{Engine, Slot};
use dk_template::State;

// Each number is one of 64 bits. A proof knows that of a number that is read.
fn read_numbers(numbers: &[i64])
    ensures { All (λ z. IsTrue (fits_i64 z)) numbers.now }
{
    for number in numbers {
        let _number = *number;
    }
}

// The same of the numbers of a state.
fn read_state(state: &State)
    ensures { AreNumbersWithin state.now }
{
    match state {
        State::Least(bound) => {
            let _bound = *bound;
        }
        State::Greatest(bound) => {
            let _bound = *bound;
        }
        State::Ints(values) => read_numbers(values.as_slice()),
        State::Code(code) => {
            let _code = *code;
        }
        State::One(value) => {
            let _value = *value;
        }
        State::Modulus { m, r } => {
            let _m = *m;
            let _r = *r;
        }
        _ => {}
    }
}

// The same of the states of slots.
fn read_states(slots: &[Slot])
    ensures { All (λ slot. AreNumbersWithin slot.state) slots.now }
{
    for slot in slots {
        read_state(&slot.state);
    }
}

// What is so of every engine: its slots are within their types.
fn read_engine(engine: &Engine)
    ensures { All FitsSlot engine.now.kept.slots }
{
    engine.kept();
    read_states(engine.slots());
}

/// What is so of all engines: what each keeps meets the conditions, and its slots are within their types.
pub(crate) fn read_engines(engines: &[Engine])
    ensures within { AreWithin engines.now }
    ensures sound { All IsSound engines.now }
{
    for engine in engines {
        read_engine(engine);
        tell_sound(engine);
    }
}
