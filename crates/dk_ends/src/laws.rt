//! Ends of files and of courses.
ghost use Rattle.dk_ends.specs.Laws.{EndsAreOfCourses};

/// Files come to the end of their course: the same history, or the same first fault.
pub fn ends_are_of_courses()
    ensures { EndsAreOfCourses }
{}
