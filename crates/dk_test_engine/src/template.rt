// The table on small cases, and a row that is used through its trait alone.
ghost use Rattle.std.specs.Prelude.{◌≤◌, length};
ghost use Rattle.dk_template.specs.Templates.{IsRow};

use dk_base::{Compar, Form, Kind, List, NoMemory, Text, VarId, VarInfo, View, int_at};
use dk_forms::{plain_point, plain_stays};
use dk_template::*;
use std::alloc::Global;
use std::process::Abort;
use std::test::Fail;

// Whether the first number is less than the second.
#[derive(Clone, Copy)]
struct Less;

impl Row for Less {
    ghost use Rattle.std.specs.Prelude.{◌∷◌, [], map, int_lt};
    ghost use Rattle.dk_base.specs.Values.Tuples.{int_of, value_at};
    ghost use Rattle.dk_base.specs.declared.kinds.Kind.TheVariants as kind;
    ghost use Rattle.dk_forms.specs.Plain.{plain_of};
    ghost use Rattle.dk_forms.proofs.PlainLaws.{plain_laws, plain_summary};
    ghost use Rattle.dk_forms.proofs.Summaries.{along_map};
    ghost use Rattle.dk_template.specs.declared.templates.StateForm.TheVariants as form;

    ghost kinds = { λ row. kind.Int ∷ kind.Int ∷ [] };

    ghost form = { λ row. form.Plain };

    ghost state_of = { λ row tuples. plain_of (map (λ t. int_lt (int_of (value_at t 0)) (int_of (value_at t 1))) tuples) };

    ghost laws = { λ row. let s = along_map (λ t. int_lt (int_of (value_at t 0)) (int_of (value_at t 1))) plain_summary in record { joins = plain_laws; none = s.none; both = s.both; same = s.same; proper = λ tuples p. s.proper tuples } };

    fn point(&self, _alloc: Global, tuple: &[View<'_>]) -> Result<State, NoMemory> {
        Ok(plain_point(int_at(tuple, 0) < int_at(tuple, 1)))
    }

    fn join(&self, alloc: Global, a: State, b: &State) -> Result<State, NoMemory> {
        join_states(StateForm::Plain, alloc, a, b)
    }

    fn stays(&self, state: &State, tuple: &[View<'_>]) -> bool {
        plain_stays(state, int_at(tuple, 0) < int_at(tuple, 1))
    }
}

#[test]
fn joins_points_through_the_trait(rt: HostRuntime) -> Result<(), Fail> {
    let row = Less;
    let below: [View<'_>; 2] = [View::Int(1), View::Int(2)];
    let same: [View<'_>; 2] = [View::Int(2), View::Int(2)];
    let holds = laws::state_of_list(&row, rt.alloc(), &[&below, &below])?;
    assert!(rt; holds == State::Holds);
    let fails = laws::state_of_list(&row, rt.alloc(), &[&below, &same])?;
    assert!(rt; row.broken(&fails));
    Ok(())
}

fn variable(alloc: Global, kind: Kind, form: Form) -> VarInfo {
    VarInfo {
        name: Text::new(alloc),
        kind,
        form,
        compar: Compar {
            elem: -1,
            index: -1,
        },
    }
}

// A number, the number at the entry, a sequence of numbers, its size, and a slice of it.
fn variables(alloc: Global) -> Result<List<VarInfo>, NoMemory> {
    let mut vars = List::new(alloc);
    vars.push(variable(alloc, Kind::Int, Form::Declared))?;
    vars.push(variable(alloc, Kind::Int, Form::Orig))?;
    vars.push(variable(alloc, Kind::IntSeq, Form::Declared))?;
    vars.push(variable(alloc, Kind::Int, Form::Size(VarId(2))))?;
    vars.push(variable(alloc, Kind::IntSeq, Form::Upto(VarId(2), VarId(0))))?;
    Ok(vars)
}

fn check_tuple(rt: &impl Abort, vars: &[VarInfo], row: u8, tuple: &[VarId], marks: (bool, bool))
    requires { IsRow (record { 0 = row }) }
{
    let found = (
        admits(RowId(row), vars, tuple),
        is_written(RowId(row), tuple),
    );
    assert!(rt; found == marks);
}

#[test]
fn admits_tuples_of_a_rows_kinds(rt: HostRuntime) -> Result<(), Fail> {
    let kept = variables(rt.alloc())?;
    let vars = kept.as_slice();
    let (x, old, s, size, slice) = (VarId(0), VarId(1), VarId(2), VarId(3), VarId(4));
    check_tuple(&rt, vars, 11, &[x, size], (true, true));
    check_tuple(&rt, vars, 11, &[size, x], (true, false));
    check_tuple(&rt, vars, 11, &[x], (false, true));
    check_tuple(&rt, vars, 11, &[x, s], (false, true));
    check_tuple(&rt, vars, 13, &[old, x], (true, true));
    check_tuple(&rt, vars, 13, &[x, VarId(5)], (false, true));
    check_tuple(&rt, vars, 16, &[old, x], (true, true));
    check_tuple(&rt, vars, 16, &[x, size], (false, true));
    check_tuple(&rt, vars, 24, &[old, x, x], (true, true));
    check_tuple(&rt, vars, 24, &[x, old, x], (true, false));
    check_tuple(&rt, vars, 52, &[slice, old], (true, true));
    check_tuple(&rt, vars, 52, &[s, size], (false, true));
    check_tuple(&rt, vars, 67, &[x, old, x], (true, false));
    Ok(())
}

fn check_state(rt: &impl Abort, row: u8, state: &State, marks: (bool, bool))
    requires { IsRow (record { 0 = row }) }
{
    let found = (proper(RowId(row), state), fits(state));
    assert!(rt; found == marks);
}

#[test]
fn tells_proper_states_and_those_that_fit(rt: HostRuntime) -> Result<(), Fail> {
    let few = State::Ints(Few::of(rt.alloc(), &[1, 2]));
    let many = State::Ints(Few::of(rt.alloc(), &[2, 1]));
    let line = State::Straight {
        a: 7,
        b: -1,
        c: -16,
    };
    let level = State::Straight { a: 0, b: 1, c: 5 };
    let doubled = State::Straight { a: 2, b: 4, c: 6 };
    check_state(&rt, 4, &State::Empty, (true, false));
    check_state(&rt, 4, &State::Broken, (true, false));
    check_state(&rt, 4, &State::Holds, (true, true));
    check_state(&rt, 2, &State::Holds, (false, true));
    check_state(&rt, 1, &few, (true, true));
    check_state(&rt, 1, &many, (false, true));
    check_state(&rt, 5, &State::One(3), (true, false));
    check_state(&rt, 5, &State::Modulus { m: 4, r: 3 }, (true, true));
    check_state(&rt, 5, &State::Modulus { m: 3, r: 3 }, (false, true));
    check_state(&rt, 4, &State::Modulus { m: 4, r: 3 }, (false, true));
    check_state(&rt, 15, &line, (true, true));
    check_state(&rt, 15, &level, (true, false));
    check_state(&rt, 15, &doubled, (false, true));
    check_state(&rt, 68, &State::Offset { k: 0 }, (true, false));
    check_state(&rt, 68, &State::Offset { k: 1 << 64 }, (false, true));
    let mut spelled = List::new(rt.alloc());
    spelled.push(Text::from_slice(rt.alloc(), b"\"a\"")?)?;
    check_state(&rt, 9, &State::Texts(spelled), (true, true));
    let mut bare = List::new(rt.alloc());
    bare.push(Text::from_slice(rt.alloc(), b"a")?)?;
    check_state(&rt, 9, &State::Texts(bare), (false, true));
    Ok(())
}

fn check_turned(
    rt: &impl Abort,
    alloc: Global,
    row: u8,
    tuple: &[VarId],
    state: State,
    expected: &State,
)
    requires row { IsRow (record { 0 = row }) }
    requires few { length tuple.now ≤ 3 }
{
    let sorted = written_order(RowId(row), tuple);
    assert!(rt; is_written(RowId(row), sorted.as_slice()));
    assert!(rt; proper(RowId(row), &state));
    let found = turn_state(RowId(row), tuple, state);
    assert!(rt; found == *expected);
}

#[test]
fn turns_states(rt: HostRuntime) {
    let (x, y, z) = (VarId(0), VarId(1), VarId(2));
    let line = State::Straight { a: 1, b: -2, c: 3 };
    let turned_line = State::Straight { a: 2, b: -1, c: -3 };
    check_turned(&rt, rt.alloc(), 15, &[y, x], line, &turned_line);
    check_turned(&rt, rt.alloc(), 24, &[x, z, y], State::Holds, &State::Holds);
    check_turned(
        &rt,
        rt.alloc(),
        68,
        &[y, x],
        State::Offset { k: 3 },
        &State::Offset { k: -3 },
    );
    let plane = State::Plane {
        a: 2,
        b: 3,
        c: -1,
        d: 1,
    };
    let turned_plane = State::Plane {
        a: 1,
        b: -2,
        c: -3,
        d: -1,
    };
    check_turned(&rt, rt.alloc(), 67, &[z, x, y], plane, &turned_plane);
}
