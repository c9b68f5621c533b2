// Variables by their forms.
ghost use Rattle.std.specs.Prelude.{◌≡◌};
ghost use Rattle.dk_languages.specs.Speaking.Forms.{end_of, presence_of, start_of, value_of};

use crate::Language;
use dk_base::Form;

fn python_value(form: Form) -> &'static str
    ensures { result.now ≡ value_of Language.Python form }
{
    match form {
        Form::Size(_) => "S",
        Form::First(_) => "P[0]",
        Form::Last(_) => "P[-1]",
        Form::At(..) => "P[I]",
        Form::Upto(..) => "P[:I + 1]",
        Form::Before(..) => "P[:I]",
        Form::Since(..) => "P[I:]",
        Form::After(..) => "P[I + 1:]",
        Form::Declared | Form::Orig => "P",
    }
}

fn c_value(form: Form) -> &'static str
    ensures { result.now ≡ value_of Language.C form }
{
    match form {
        Form::Size(_) => "S",
        Form::First(_) => "P[0]",
        Form::Last(_) => "P[dk_int(S) - 1]",
        Form::At(..) => "P[I]",
        _ => "P",
    }
}

fn smtlib_value(form: Form) -> &'static str
    ensures { result.now ≡ value_of Language.Smtlib form }
{
    match form {
        Form::Size(_) => "S",
        Form::First(_) => "(select P 0)",
        Form::Last(_) => "(select P (- S 1))",
        Form::At(..) => "(select P I)",
        _ => "P",
    }
}

/// The value of a variable; of a slice in C and SMT-LIB the sequence that it is of.
pub(crate) fn value_of(language: Language, form: Form) -> &'static str
    ensures { result.now ≡ value_of language form }
{
    match language {
        Language::Python => python_value(form),
        Language::C => c_value(form),
        Language::Smtlib => smtlib_value(form),
    }
}

fn c_start(form: Form) -> &'static str
    ensures { result.now ≡ start_of Language.C form }
{
    match form {
        Form::Since(..) => "dk_int(I)",
        Form::After(..) => "(dk_int(I) + 1)",
        _ => "0",
    }
}

fn smtlib_start(form: Form) -> &'static str
    ensures { result.now ≡ start_of Language.Smtlib form }
{
    match form {
        Form::Since(..) => "I",
        Form::After(..) => "(+ I 1)",
        _ => "0",
    }
}

/// The place of a sequence's first element, in C and SMT-LIB.
pub(crate) fn start_of(language: Language, form: Form) -> &'static str
    ensures { result.now ≡ start_of language form }
{
    match language {
        Language::Python => "0",
        Language::C => c_start(form),
        Language::Smtlib => smtlib_start(form),
    }
}

fn c_end(form: Form) -> &'static str
    ensures { result.now ≡ end_of Language.C form }
{
    match form {
        Form::Upto(..) => "(dk_int(I) + 1)",
        Form::Before(..) => "dk_int(I)",
        _ => "dk_int(S)",
    }
}

fn smtlib_end(form: Form) -> &'static str
    ensures { result.now ≡ end_of Language.Smtlib form }
{
    match form {
        Form::Upto(..) => "(+ I 1)",
        Form::Before(..) => "I",
        _ => "S",
    }
}

/// The place behind a sequence's last element, in C and SMT-LIB.
pub(crate) fn end_of(language: Language, form: Form) -> &'static str
    ensures { result.now ≡ end_of language form }
{
    match language {
        Language::Python => "S",
        Language::C => c_end(form),
        Language::Smtlib => smtlib_end(form),
    }
}

fn python_presence(form: Form) -> &'static str
    ensures { result.now ≡ presence_of Language.Python form }
{
    match form {
        Form::First(_) | Form::Last(_) => "S > 0",
        Form::At(..) => "0 <= I < S",
        Form::Upto(..) | Form::After(..) => "-1 <= I < S",
        Form::Before(..) | Form::Since(..) => "0 <= I <= S",
        Form::Declared | Form::Orig | Form::Size(_) => "",
    }
}

fn c_presence(form: Form) -> &'static str
    ensures { result.now ≡ presence_of Language.C form }
{
    match form {
        Form::First(_) | Form::Last(_) => "dk_int(S) > 0",
        Form::At(..) => "0 <= dk_int(I) && dk_int(I) < dk_int(S)",
        Form::Upto(..) | Form::After(..) => "-1 <= dk_int(I) && dk_int(I) < dk_int(S)",
        Form::Before(..) | Form::Since(..) => "0 <= dk_int(I) && dk_int(I) <= dk_int(S)",
        Form::Declared | Form::Orig | Form::Size(_) => "",
    }
}

fn smtlib_presence(form: Form) -> &'static str
    ensures { result.now ≡ presence_of Language.Smtlib form }
{
    match form {
        Form::First(_) | Form::Last(_) => "(> S 0)",
        Form::At(..) => "(and (<= 0 I) (< I S))",
        Form::Upto(..) | Form::After(..) => "(and (<= (- 1) I) (< I S))",
        Form::Before(..) | Form::Since(..) => "(and (<= 0 I) (<= I S))",
        Form::Declared | Form::Orig | Form::Size(_) => "",
    }
}

/// Where a variable is there; no text where it is there always.
pub(crate) fn presence_of(language: Language, form: Form) -> &'static str
    ensures { result.now ≡ presence_of language form }
{
    match language {
        Language::Python => python_presence(form),
        Language::C => c_presence(form),
        Language::Smtlib => smtlib_presence(form),
    }
}
