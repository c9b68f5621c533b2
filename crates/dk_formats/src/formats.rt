// The formats in which reports are told.
use dk_languages::Language;

/// A format in which a report is told.
#[derive(Clone, Copy, Debug, PartialEq, Eq)]
pub enum Format {
    /// An object of JSON a line.
    Json,
    /// A function, or a macro, for each point.
    In(Language),
    /// A page of HTML.
    Html,
}

/// A format in which sections are told one after another.
#[derive(Clone, Copy, Debug, PartialEq, Eq)]
pub enum Sectioned {
    /// An object of JSON a line.
    Json,
    /// A function, or a macro, for each point.
    In(Language),
}
