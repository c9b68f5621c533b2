//! What reports in a format come to.
ghost use Rattle.dk_formats.specs.Laws.{ReportsAreToldOnce};

/// A report has at most one text in a format.
pub fn reports_are_told_once()
    ensures { ReportsAreToldOnce }
{}
