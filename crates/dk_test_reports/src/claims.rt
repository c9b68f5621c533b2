// Lines of a report, read back over the variables of one point, and assertions, tested with tuples.
ghost use Rattle.std.specs.Prelude.{◌≡◌, IfOk, length};

use dk_base::{Compar, Form, Kind, List, NoMemory, Text, VarId, VarInfo, View};
use dk_expr::{Assertion, VarNames, read, read_by};
use dk_template::{RowId, State, Tuple};
use std::alloc::Global;
use std::test::Fail;

const VARS: [(&[u8], Kind); 5] = [
    (b"x", Kind::Int),
    (b"y", Kind::Int),
    (b"h", Kind::Hash),
    (b"a[..]", Kind::IntSeq),
    (b"x >= 1", Kind::Int),
];

// A text, with the row that it is read as, 0 where there is none, and the variables.
static CASES: [(&[u8], u8, &[u32]); 18] = [
    (b"x >= 1", 2, &[0]),
    (b"x >= 01", 0, &[]),
    (b"x >= 9223372036854775808", 0, &[]),
    (b"x >= 1 >= 3", 2, &[4]),
    (b"x one of { -3, 1 }", 1, &[0]),
    (b"x one of { 1, -3 }", 0, &[]),
    (b"x == 1 (mod 2)", 5, &[0]),
    (b"x == 2 (mod 2)", 0, &[]),
    (b"h == null", 7, &[2]),
    (b"h has only one value", 7, &[2]),
    (b"x == y", 11, &[0, 1]),
    (b"y == x", 0, &[]),
    (b"y < x", 13, &[1, 0]),
    (b"x - 2 * y + 1 == 0", 15, &[0, 1]),
    (b"2 * x - 4 * y + 2 == 0", 0, &[]),
    (b"a[..] elements == x", 52, &[3, 0]),
    (b"x >= 1  [4]", 0, &[]),
    (b"z >= 1", 0, &[]),
];

fn infos(alloc: Global) -> Result<List<VarInfo>, NoMemory>
    ensures { IfOk result (λ infos. length infos ≡ 5) }
{
    let mut infos = List::new(alloc);
    for (name, kind) in &VARS {
        infos.push(VarInfo {
            name: Text::from_slice(alloc, *name)?,
            kind: *kind,
            form: Form::Declared,
            compar: Compar { elem: 1, index: 1 },
        })?;
    }
    Ok(infos)
}

// Whether this was read.
fn is_read(read: &Option<Assertion>, row: u8, places: &[u32]) -> bool {
    match read {
        None => row == 0,
        Some(read) => {
            read.row.0 == row
                && read
                    .vars
                    .as_slice()
                    .iter()
                    .map(|v| v.0)
                    .eq(places.iter().copied())
        }
    }
}

#[test]
fn lines_are_read_back(rt: HostRuntime) -> Result<(), Fail> {
    let alloc = rt.alloc();
    let list = infos(alloc)?;
    let infos = list.as_slice();
    let names = VarNames::of(alloc, infos)?;
    for (text, row, places) in &CASES {
        assert!(rt; is_read(&read(alloc, infos, *text)?, *row, *places));
        assert!(rt; is_read(&read_by(alloc, infos, &names, *text)?, *row, *places));
    }
    Ok(())
}

#[tactic(auto, unfolding(dk_template::specs::Templates::rows))]
#[test]
fn one_value_is_known_from_the_first_tuple_on(rt: HostRuntime) -> Result<(), Fail> {
    let alloc = rt.alloc();
    let mut only = Assertion {
        row: RowId(7),
        vars: Tuple::of(&[VarId(2)]),
        state: State::Empty,
    };
    let first = only.test(alloc, &[View::Hash(5)])?;
    let other = only.test(alloc, &[View::Hash(6)])?;
    let again = only.test(alloc, &[View::Hash(5)])?;
    assert!(rt; !first && other && !again && matches!(only.state, State::Code(5)));
    Ok(())
}
