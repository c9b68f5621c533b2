// Rows chosen by their numbers.

/// An expression over the row that has a number, in the row's own type: `by_number!(number, row => expression, { 1 => A, 2 => B, _ => C })`
/// is the expression with `A` in place of `row` where the number is 1, and so on; the last row has all other numbers.
#[macro_export]
macro_rules! by_number {
    ($number:expr, $row:ident => $value:expr, { $($n:literal => $which:expr,)+ _ => $last:expr $(,)? }) => {
        match $number.0 {
            $($n => {
                let $row = $which;
                $value
            })+
            _ => {
                let $row = $last;
                $value
            }
        }
    };
}
