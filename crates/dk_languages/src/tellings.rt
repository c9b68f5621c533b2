// What a line of a report says, as an expression of a language.
ghost use Rattle.std.specs.Prelude.{◌≡◌, ◌++◌, IfOk, OnOk, flat_map};
ghost use Rattle.std.specs.List.{join_by, list_all};
ghost use Rattle.dk_languages.specs.Rows.{separator_in};
ghost use Rattle.dk_languages.specs.Speaking.{is_spoken};
ghost use Rattle.dk_languages.specs.Tellings.{conjunction, filling, guard, guarded, is_telling, number_filling, number_fillings, presence_text, role_fillings, roles_fillings, roles_of, row_fillings, row_text, telling, value_text, values_text, with_presence};

use crate::fillings::{Filling, fill, push_filled};
use crate::literals::numbers::{number_in, push_number};
use crate::literals::{Literal, can_say};
use crate::rows::{row_in, separator_in, value_in};
use crate::speaking::{Spoken, is_spoken, spoken_of};
use crate::{Base, Language};
use dk_base::{List, NoMemory, Text, VarId, VarInfo};
use dk_template::{RowId, State};
use std::alloc::Global;

// The letters of a role's value, start and end, by role.
const ROLE_LETTERS: &[(u8, u8, u8)] = &[(b'X', b'F', b'T'), (b'Y', b'G', b'U'), (b'Z', b'H', b'V')];

fn filling(alloc: Global, letter: u8, bytes: &[u8]) -> Result<Filling, NoMemory>
    ensures { IfOk result (λ f. f ≡ filling letter bytes.now) }
{
    let text = Text::from_slice(alloc, bytes)?;
    Ok(Filling { letter, text })
}

// What stands for the letters of a role, behind the others.
fn push_role(
    alloc: Global,
    fillings: &mut List<Filling>,
    letters: (u8, u8, u8),
    spoken: &Spoken,
) -> Result<(), NoMemory>
    ensures { OnOk result (fillings.new ≡ fillings.old ++ role_fillings (letters, spoken.now)) }
{
    fillings.push(filling(alloc, letters.0, spoken.value.as_slice())?)?;
    fillings.push(filling(alloc, letters.1, spoken.start.as_slice())?)?;
    fillings.push(filling(alloc, letters.2, spoken.end.as_slice())?)
}

// What stands for the letters of all roles.
fn roles_fillings(alloc: Global, roles: &[Spoken]) -> Result<List<Filling>, NoMemory>
    ensures { IfOk result (λ fillings. fillings ≡ roles_fillings roles.now) }
{
    let mut fillings = List::new(alloc);
    for (letters, spoken) in ROLE_LETTERS.iter().zip(roles) {
        push_role(alloc, &mut fillings, *letters, spoken)?;
    }
    Ok(fillings)
}

// What stands for the letter of a number of the state.
fn number_filling(
    alloc: Global,
    language: Language,
    state: &State,
    letter: u8,
    place: usize,
) -> Result<Filling, NoMemory>
    ensures { IfOk result (λ f. f ≡ number_filling language state.now letter place) }
{
    let mut text = Text::new(alloc);
    push_number(&mut text, language, number_in(state, place))?;
    Ok(Filling { letter, text })
}

// What stands for the letters of all numbers, behind the others.
fn push_numbers(
    alloc: Global,
    fillings: &mut List<Filling>,
    language: Language,
    state: &State,
) -> Result<(), NoMemory>
    ensures { OnOk result (fillings.new ≡ fillings.old ++ number_fillings language state.now) }
{
    fillings.push(number_filling(alloc, language, state, b'A', 0)?)?;
    fillings.push(number_filling(alloc, language, state, b'B', 1)?)?;
    fillings.push(number_filling(alloc, language, state, b'C', 2)?)?;
    fillings.push(number_filling(alloc, language, state, b'D', 3)?)
}

// What stands for the letters of a row.
fn row_fillings(
    alloc: Global,
    language: Language,
    roles: &[Spoken],
    state: &State,
) -> Result<List<Filling>, NoMemory>
    ensures { IfOk result (λ fillings. fillings ≡ row_fillings language roles.now state.now) }
{
    let mut fillings = roles_fillings(alloc, roles)?;
    push_numbers(alloc, &mut fillings, language, state)?;
    Ok(fillings)
}

// What is said of a value that has a literal, behind the text.
fn push_value<T: Literal>(
    alloc: Global,
    text: &mut Text,
    language: Language,
    row: RowId,
    roles: &[Spoken],
    state: &State,
    value: &T,
) -> Result<(), NoMemory>
    ensures { OnOk result (text.new ≡ text.old ++ value_text language row roles.now state.now (T.literal_of language value.now)) }
{
    let mut literal = Text::new(alloc);
    value.push_to(&mut literal, language)?;
    let mut fillings = row_fillings(alloc, language, roles, state)?;
    fillings.push(Filling {
        letter: b'K',
        text: literal,
    })?;
    push_filled(text, fillings.as_slice(), value_in(language, row))
}

// What is said of the values, each behind a separator.
fn push_rest<T: Literal>(
    alloc: Global,
    text: &mut Text,
    language: Language,
    row: RowId,
    roles: &[Spoken],
    state: &State,
    values: &[T],
) -> Result<(), NoMemory>
    ensures { OnOk result (text.new ≡ text.old ++ flat_map (λ x. separator_in language ++ value_text language row roles.now state.now (T.literal_of language x)) values.now) }
{
    for value in values {
        text.append(separator_in(language).as_bytes())?;
        push_value(alloc, text, language, row, roles, state, value)?;
    }
    Ok(())
}

// What is said of the values, one after another.
fn push_values<T: Literal>(
    alloc: Global,
    text: &mut Text,
    language: Language,
    row: RowId,
    roles: &[Spoken],
    state: &State,
    values: &[T],
) -> Result<(), NoMemory>
    ensures { OnOk result (text.new ≡ text.old ++ join_by (λ x. value_text language row roles.now state.now (T.literal_of language x)) (separator_in language) values.now) }
{
    match values {
        [] => Ok(()),
        [first, rest @ ..] => {
            push_value(alloc, text, language, row, roles, state, first)?;
            push_rest(alloc, text, language, row, roles, state, rest)
        }
    }
}

// What is said of the values of the state, behind the text; nothing where it has none.
fn push_known(
    alloc: Global,
    text: &mut Text,
    language: Language,
    row: RowId,
    roles: &[Spoken],
    state: &State,
) -> Result<(), NoMemory>
    ensures { OnOk result (text.new ≡ text.old ++ values_text language row roles.now state.now) }
{
    match state {
        State::Ints(known) => {
            push_values(alloc, text, language, row, roles, state, known.as_slice())
        }
        State::Truth(known) => push_values(alloc, text, language, row, roles, state, &[*known]),
        State::Texts(known) => {
            push_values(alloc, text, language, row, roles, state, known.as_slice())
        }
        _ => Ok(()),
    }
}

// What the row says.
fn row_text(
    alloc: Global,
    language: Language,
    row: RowId,
    roles: &[Spoken],
    state: &State,
) -> Result<Text, NoMemory>
    ensures { IfOk result (λ text. text ≡ row_text language row roles.now state.now) }
{
    let mut values = Text::new(alloc);
    push_known(alloc, &mut values, language, row, roles, state)?;
    let mut fillings = row_fillings(alloc, language, roles, state)?;
    fillings.push(Filling {
        letter: b'L',
        text: values,
    })?;
    fill(alloc, fillings.as_slice(), row_in(language, row))
}

fn conjunction(language: Language) -> &'static str
    ensures { result.now ≡ conjunction language }
{
    match language {
        Language::Python => " and ",
        Language::C => " && ",
        Language::Smtlib => " ",
    }
}

fn guard(language: Language) -> &'static str
    ensures { result.now ≡ guard language }
{
    match language {
        Language::Python => "not (P) or (E)",
        Language::C => "!(P) || (E)",
        Language::Smtlib => "(=> (and true P) E)",
    }
}

// One condition more, behind those that there are.
#[tactic(auto, using(crate::proofs::Growing::is_empty_by_length))]
fn push_presence(text: &mut Text, language: Language, presence: &[u8]) -> Result<(), NoMemory>
    ensures { OnOk result (text.new ≡ with_presence language text.old presence.now) }
{
    if presence.is_empty() {
        return Ok(());
    }
    if text.is_empty() {
        return text.append(presence);
    }
    text.append(conjunction(language).as_bytes())?;
    text.append(presence)
}

// Where all variables are there; no text where they are always.
fn presence_text(alloc: Global, language: Language, roles: &[Spoken]) -> Result<Text, NoMemory>
    ensures { IfOk result (λ text. text ≡ presence_text language roles.now) }
{
    let mut text = Text::new(alloc);
    for role in roles {
        push_presence(&mut text, language, role.presence.as_slice())?;
    }
    Ok(text)
}

// What is said where all variables are there.
#[tactic(auto, using(crate::proofs::Growing::is_empty_by_length))]
fn guarded(
    alloc: Global,
    language: Language,
    roles: &[Spoken],
    text: Text,
) -> Result<Text, NoMemory>
    ensures { IfOk result (λ all. all ≡ guarded language roles.now text) }
{
    let presence = presence_text(alloc, language, roles)?;
    if presence.is_empty() {
        return Ok(text);
    }
    let mut fillings = List::new(alloc);
    fillings.push(Filling {
        letter: b'P',
        text: presence,
    })?;
    fillings.push(Filling { letter: b'E', text })?;
    fill(alloc, fillings.as_slice(), guard(language))
}

// The variables by their roles, in the language.
fn roles_of(
    alloc: Global,
    language: Language,
    infos: &[VarInfo],
    bases: &[Base],
    vars: &[VarId],
) -> Result<List<Spoken>, NoMemory>
    ensures { IfOk result (λ roles. roles ≡ roles_of language infos.now bases.now vars.now) }
{
    let mut roles = List::new(alloc);
    for var in vars {
        roles.push(spoken_of(alloc, language, infos, bases, *var)?)?;
    }
    Ok(roles)
}

// Whether the language can say all of the variables.
fn are_spoken(infos: &[VarInfo], bases: &[Base], vars: &[VarId]) -> bool
    ensures { result ≡ list_all (is_spoken infos.now bases.now) vars.now }
{
    vars.iter().all(|var| is_spoken(infos, bases, *var))
}

// Whether the language can say the variables, the row and what the state knows.
#[tactic(auto, using(crate::proofs::Growing::is_empty_by_length))]
fn is_telling(
    language: Language,
    infos: &[VarInfo],
    bases: &[Base],
    row: RowId,
    vars: &[VarId],
    state: &State,
) -> bool
    ensures { result ≡ is_telling language infos.now bases.now row vars.now state.now }
{
    are_spoken(infos, bases, vars) && can_say(language, state) && !row_in(language, row).is_empty()
}

/// What a line of a report says, as an expression of the language that is true where the line holds: `row` over the variables `vars` of
/// `infos` with this state, the variables being told as `bases` says, which `bases` makes of `infos`. Where some variable isn't there (a
/// derived one, as an element at a place that the sequence doesn't have) the expression is true. None where the language can't say it.
pub fn telling(
    alloc: Global,
    language: Language,
    infos: &[VarInfo],
    bases: &[Base],
    row: RowId,
    vars: &[VarId],
    state: &State,
) -> Result<Option<Text>, NoMemory>
    ensures { IfOk result (λ told. told ≡ telling language infos.now bases.now row vars.now state.now) }
{
    if !is_telling(language, infos, bases, row, vars, state) {
        return Ok(None);
    }
    let roles = roles_of(alloc, language, infos, bases, vars)?;
    let text = row_text(alloc, language, row, roles.as_slice(), state)?;
    Ok(Some(guarded(alloc, language, roles.as_slice(), text)?))
}
