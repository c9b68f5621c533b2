// Three numbers of a sample that break a row at once, whatever its state was.
ghost use Rattle.std.specs.Prelude.{◌≡◌, ◌↔◌, ◌%◌, ◌∷◌, [], false, IfSome, IsTrue, not};
ghost use Rattle.dk_base.specs.Values.{values_of};
ghost use Rattle.dk_base.specs.declared.kinds.VarId.{VarId as Var};
ghost use Rattle.dk_base.specs.declared.values.Value.TheVariants as sample_value;
ghost use Rattle.dk_forms.specs.declared.states.State.{State as RowState};
ghost use Rattle.dk_forms.specs.declared.states.State.TheVariants.{Broken};
ghost use Rattle.dk_samples.specs.Samples.{value_in};
ghost use Rattle.dk_template.specs.Admitted.{is_written};
ghost use Rattle.dk_ternary.specs.Rows.{is_result, operation_row};
ghost use Rattle.dk_engine.specs.Feeding.{with_sample};

use dk_base::{VarId, View};
use dk_samples::value_at;
use dk_ternary::Operation;

/// The number that the variable has in the sample, if it has one.
#[inline(always)]
pub(crate) fn number_at(sample: &[View<'_>], v: VarId) -> Option<i64>
    ensures { IfSome result (λ z. value_in (values_of sample.now) v ≡ sample_value.Int z) }
{
    match value_at(sample, v) {
        View::Int(number) => Some(number),
        _ => None,
    }
}

/// Whether the operation's arguments may be exchanged and aren't in written order.
#[inline(always)]
pub(crate) fn descend(operation: Operation, w: VarId, x: VarId) -> bool
    ensures { IsTrue result → (v : Var) → is_written (operation_row operation) (v ∷ w ∷ x ∷ []) ≡ false }
{
    match operation {
        Operation::Difference | Operation::Quotient | Operation::Remainder => false,
        _ => x.0 < w.0,
    }
}

// Whether a number has this divisor. 0 alone has the divisor 0.
fn has_divisor(x: u64, divisor: u64) -> bool
    ensures { IsTrue result ↔ (x % divisor ≡ 0) }
{
    if divisor == 0 {
        x == 0
    } else {
        x % divisor == 0
    }
}

// Whether it is seen sooner than by the operation that z isn't the result: a quotient times y isn't beyond x, a remainder is below y, and
// a greatest common divisor is a divisor of x.
#[inline(always)]
fn is_out_of_reach(operation: Operation, z: i64, x: i64, y: i64) -> bool
    ensures { IsTrue result → is_result operation z x y ≡ false }
{
    let (z, x, y) = (z.unsigned_abs(), x.unsigned_abs(), y.unsigned_abs());
    match operation {
        Operation::Quotient => (z as u128) * (y as u128) > x as u128,
        Operation::Remainder => z >= y,
        Operation::Gcd => !has_divisor(x, z),
        _ => false,
    }
}

// Whether z isn't the result of the operation on x and y.
#[inline(always)]
fn isnt_result(operation: Operation, z: i64, x: i64, y: i64) -> bool
    ensures { result ≡ not (is_result operation z x y) }
{
    is_out_of_reach(operation, z, x, y) || !operation.is_result(z, x, y)
}

/// Whether the variables have numbers in the sample, of which the first isn't the result of the operation on the two others. Then the
/// sample breaks the operation's row over them.
#[inline(always)]
pub(crate) fn breaks(
    operation: Operation,
    sample: &[View<'_>],
    v: VarId,
    w: VarId,
    x: VarId,
) -> bool
    ensures { IsTrue result → (s : RowState) → with_sample (operation_row operation) (v ∷ w ∷ x ∷ []) (values_of sample.now) s ≡ Broken }
{
    match (
        number_at(sample, v),
        number_at(sample, w),
        number_at(sample, x),
    ) {
        (Some(a), Some(b), Some(c)) => isnt_result(operation, a, b, c),
        _ => false,
    }
}
