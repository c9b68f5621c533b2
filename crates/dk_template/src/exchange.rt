// Tuples and states with two neighbouring roles exchanged.
ghost use Rattle.std.specs.Prelude.{◌≡◌, ◌≤◌, ◌<◌, ◌^◌, ℤ, pos, neg_ℤ, length, unsigned_abs, IsTrue};
ghost use Rattle.dk_template.specs.Admitted.{is_written};
ghost use Rattle.dk_arith.specs.Directions.{leading};
ghost use Rattle.dk_forms.specs.Known.{fact};
ghost use Rattle.dk_forms.specs.Plane.Line.{line_state, straight};
ghost use Rattle.dk_forms.specs.Plane.{plane, plane_state};
ghost use Rattle.dk_template.specs.Exchange.{IsBounded, arrange_tuple, descends, disarrange_state, exchange as exchange_of, exchanged_back, exchanged_state, order_tuple, signed_line, signed_plane, span_between, turned_state, written_order};
ghost use Rattle.dk_template.specs.Proper.{IsProper};
ghost use Rattle.dk_template.specs.Templates.{IsRow, form_of};

use crate::properness::is_before;
use crate::templates::template_at;
use crate::{RowId, State, StateForm, Symmetry, Tuple};
use dk_base::VarId;

/// Two neighbouring roles of a row.
#[derive(Clone, Copy, Debug, PartialEq, Eq)]
pub enum Exchange {
    /// The first and the second.
    First,
    /// The second and the third.
    Last,
}

// The first that isn't 0.
fn leading(p: i128, q: i128, r: i128) -> i128
    ensures { result ≡ leading p q r }
{
    if p == 0 {
        if q == 0 { r } else { q }
    } else {
        p
    }
}

fn negate(z: i128) -> i128
    requires { unsigned_abs z ≤ 2 ^ 126 }
    ensures { result ≡ neg_ℤ z }
{
    -z
}

// The line with the first number of its direction that isn't 0 positive.
fn signed_line(a: i128, b: i128, c: i128) -> State
    requires a { unsigned_abs a ≤ 2 ^ 63 }
    requires b { unsigned_abs b ≤ 2 ^ 63 }
    requires c { unsigned_abs c ≤ 2 ^ 126 }
    ensures { result ≡ line_state (fact (straight (signed_line (a, b, c)))) }
{
    if leading(a, b, 0) < 0 {
        State::Straight {
            a: negate(a),
            b: negate(b),
            c: negate(c),
        }
    } else {
        State::Straight { a, b, c }
    }
}

// The plane with the first number of its direction that isn't 0 positive.
fn signed_plane(a: i128, b: i128, c: i128, d: i128) -> State
    requires a { unsigned_abs a ≤ 2 ^ 63 }
    requires b { unsigned_abs b ≤ 2 ^ 63 }
    requires c { unsigned_abs c ≤ 2 ^ 63 }
    requires d { unsigned_abs d ≤ 2 ^ 95 }
    ensures { result ≡ plane_state (fact (plane (signed_plane (a, b, c, d)))) }
{
    if leading(a, b, c) < 0 {
        State::Plane {
            a: negate(a),
            b: negate(b),
            c: negate(c),
            d: negate(d),
        }
    } else {
        State::Plane { a, b, c, d }
    }
}

// The span between two points.
#[tactic(auto, unfolding(crate::specs::Exchange::span_between))]
fn ordered_span(x1: i64, y1: i64, z1: i64, x2: i64, y2: i64, z2: i64) -> State
    ensures { result ≡ span_between (x1, y1, z1) (x2, y2, z2) }
{
    if is_before(x1, y1, z1, x2, y2, z2) {
        State::Span {
            x1,
            y1,
            z1,
            x2,
            y2,
            z2,
        }
    } else {
        State::Span {
            x1: x2,
            y1: y2,
            z1: z2,
            x2: x1,
            y2: y1,
            z2: z1,
        }
    }
}

// With the first two roles exchanged.
fn exchanged_first(state: State) -> State
    requires { IsBounded state }
    ensures { result ≡ exchanged_state Exchange.First state }
{
    match state {
        State::Spot { x, y } => State::Spot { x: y, y: x },
        State::Straight { a, b, c } => signed_line(b, a, c),
        State::Span {
            x1,
            y1,
            z1,
            x2,
            y2,
            z2,
        } => ordered_span(y1, x1, z1, y2, x2, z2),
        State::Plane { a, b, c, d } => signed_plane(b, a, c, d),
        State::Offset { k } => State::Offset { k: negate(k) },
        other => other,
    }
}

// With the last two of three roles exchanged.
fn exchanged_last(state: State) -> State
    requires { IsBounded state }
    ensures { result ≡ exchanged_state Exchange.Last state }
{
    match state {
        State::Span {
            x1,
            y1,
            z1,
            x2,
            y2,
            z2,
        } => ordered_span(x1, z1, y1, x2, z2, y2),
        State::Plane { a, b, c, d } => signed_plane(a, c, b, d),
        other => other,
    }
}

fn exchanged_state(exchange: Exchange, state: State) -> State
    requires { IsBounded state }
    ensures { result ≡ exchanged_state exchange state }
{
    match exchange {
        Exchange::First => exchanged_first(state),
        Exchange::Last => exchanged_last(state),
    }
}

/// A state of the form over the same variables with two neighbouring roles exchanged: the coordinates at these roles are, the ends
/// of a span are ordered anew, and the sign of a line or a plane is set anew; an offset between the two changes its sign. Every other
/// state stays, also one over two variables where the last two of three are exchanged.
pub fn exchange_state(form: StateForm, exchange: Exchange, state: State) -> State
    requires { IsProper form state }
    ensures value { result ≡ exchanged_state exchange state }
    ensures proper { IsProper form result }
{
    exchanged_state(exchange, state)
}

// Whether the later of the two variables stands first.
fn descends(exchange: Exchange, tuple: &[VarId]) -> bool
    ensures { result ≡ descends exchange tuple.now }
{
    match exchange {
        Exchange::First => match tuple {
            [v, w, ..] => w.0 < v.0,
            _ => false,
        },
        Exchange::Last => match tuple {
            [_, v, w, ..] => w.0 < v.0,
            _ => false,
        },
    }
}

fn exchange_tuple(exchange: Exchange, tuple: &[VarId]) -> Tuple
    requires { length tuple.now ≤ 3 }
    ensures { result ≡ exchange_of exchange tuple.now }
{
    match exchange {
        Exchange::First => match tuple {
            [v, w] => Tuple::of(&[*w, *v]),
            [v, w, x] => Tuple::of(&[*w, *v, *x]),
            _ => Tuple::of(tuple),
        },
        Exchange::Last => match tuple {
            [u, v, w] => Tuple::of(&[*u, *w, *v]),
            _ => Tuple::of(tuple),
        },
    }
}

// The two variables in order.
fn order_tuple(exchange: Exchange, tuple: &[VarId]) -> Tuple
    requires { length tuple.now ≤ 3 }
    ensures { result ≡ order_tuple exchange tuple.now }
{
    if descends(exchange, tuple) {
        exchange_tuple(exchange, tuple)
    } else {
        Tuple::of(tuple)
    }
}

/// The tuple in the row's written order: at the roles that may be exchanged the variables don't descend.
pub fn written_order(row: RowId, tuple: &[VarId]) -> Tuple
    requires row { IsRow row }
    requires few { length tuple.now ≤ 3 }
    ensures value { result ≡ written_order row tuple.now }
    ensures written { IsTrue (is_written row result) }
{
    arrange_tuple(template_at(row).symmetry, tuple)
}

fn arrange_tuple(symmetry: Symmetry, tuple: &[VarId]) -> Tuple
    requires { length tuple.now ≤ 3 }
    ensures { result ≡ arrange_tuple symmetry tuple.now }
{
    match symmetry {
        Symmetry::Fixed => Tuple::of(tuple),
        Symmetry::All => {
            let one = order_tuple(Exchange::Last, tuple);
            let two = order_tuple(Exchange::First, one.as_slice());
            order_tuple(Exchange::Last, two.as_slice())
        }
        Symmetry::Arguments => order_tuple(Exchange::Last, tuple),
    }
}

// From the state of a tuple in which the two variables are in order, the state of the tuple.
fn exchanged_back(form: StateForm, exchange: Exchange, tuple: &[VarId], state: State) -> State
    requires { IsProper form state }
    ensures value { result ≡ exchanged_back exchange tuple.now state }
    ensures proper { IsProper form result }
{
    if descends(exchange, tuple) {
        exchange_state(form, exchange, state)
    } else {
        state
    }
}

fn disarrange_state(form: StateForm, symmetry: Symmetry, tuple: &[VarId], state: State) -> State
    requires few { length tuple.now ≤ 3 }
    requires state { IsProper form state }
    ensures value { result ≡ disarrange_state symmetry tuple.now state }
    ensures proper { IsProper form result }
{
    match symmetry {
        Symmetry::Fixed => state,
        Symmetry::All => {
            let one = order_tuple(Exchange::Last, tuple);
            let two = order_tuple(Exchange::First, one.as_slice());
            let third = exchanged_back(form, Exchange::Last, two.as_slice(), state);
            let second = exchanged_back(form, Exchange::First, one.as_slice(), third);
            exchanged_back(form, Exchange::Last, tuple, second)
        }
        Symmetry::Arguments => exchanged_back(form, Exchange::Last, tuple, state),
    }
}

/// From the state of the row over a tuple in its written order, that over the tuple as it stands.
pub fn turn_state(row: RowId, tuple: &[VarId], state: State) -> State
    requires row { IsRow row }
    requires few { length tuple.now ≤ 3 }
    requires state { IsProper (form_of row) state }
    ensures value { result ≡ turned_state row tuple.now state }
    ensures proper { IsProper (form_of row) result }
{
    let template = template_at(row);
    disarrange_state(template.form, template.symmetry, tuple, state)
}
