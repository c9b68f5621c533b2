//! What the definitions of the table come to.
ghost use Rattle.dk_points.specs.Laws.{FullTableTakesNone, SameIsEqual};

/// A declaration is the same as another one exactly where the two are equal.
pub fn same_is_equal()
    ensures { SameIsEqual }
{}

/// A table of 65,535 points takes no new one, and one of 65,534 points takes no subexit that makes its combined exit.
pub fn full_table_takes_none()
    ensures { FullTableTakesNone }
{}
