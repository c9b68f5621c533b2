// The tables of all rows.
ghost use Rattle.std.specs.Prelude.{◌≡◌, map};
ghost use Rattle.dk_languages.specs.Rows.{is_of_elements, row_in, rows_in, separator_in, value_in};

mod c;
mod python;
mod smtlib;

use crate::Language;
use dk_template::{RowId, rows};

fn rows_in(language: Language) -> &'static [&'static str]
    ensures { map (λ row. row.now) result.now ≡ rows_in language }
{
    match language {
        Language::Python => python::rows(),
        Language::C => c::rows(),
        Language::Smtlib => smtlib::rows(),
    }
}

/// What a row says in the language, with holes. It is empty for what isn't a row of the table.
pub(crate) fn row_in(language: Language, row: RowId) -> &'static str
    ensures { result.now ≡ row_in language row }
{
    match rows_in(language).get(row.0 as usize) {
        Some(template) => template,
        None => "",
    }
}

// Whether the row lists the values of elements.
fn is_of_elements(row: RowId) -> bool
    ensures { result ≡ is_of_elements row }
{
    row.0 == rows::ELT_ONE_OF_INT || row.0 == rows::ELT_ONE_OF_BOOL || row.0 == rows::ELT_ONE_OF_STR
}

/// What is said of each value that a row lists, with a hole for the value.
pub(crate) fn value_in(language: Language, row: RowId) -> &'static str
    ensures { result.now ≡ value_in language row }
{
    match language {
        Language::Python | Language::C => "K",
        Language::Smtlib => {
            if is_of_elements(row) {
                "(= (select X i) K)"
            } else {
                "(= X K)"
            }
        }
    }
}

/// What stands between two values.
pub(crate) fn separator_in(language: Language) -> &'static str
    ensures { result.now ≡ separator_in language }
{
    match language {
        Language::Python | Language::C => ", ",
        Language::Smtlib => " ",
    }
}
