// The one text that saving writes for a value.
ghost use Rattle.std.specs.Prelude.{◌≡◌, ◌++◌, ◌∷◌, ℕ, List, IfOk, OnOk, Some, map, if◌then◌else◌};
ghost use Rattle.std.specs.Fmt.{signed_decimal};
ghost use Rattle.std.specs.List.{join_with_byte};
ghost use Rattle.dk_base.specs.Values.{IsOfKind, value_of, value_of_text};
ghost use Rattle.dk_base.specs.Values.Spelling.{IsWritten, bool_text, hash_text, sequence_text, spelling};
ghost use Rattle.dk_base.specs.declared.kinds.Kind.{Kind};

use crate::{NoMemory, Text, View};
use std::alloc::Global;

const BLANK: u8 = b' ';

/// What has one text as an item of a sequence.
trait Spelled {
    ghost text_of: { Self → List ℕ };

    fn spell(&self, alloc: Global, text: &mut Text) -> Result<(), NoMemory>
        ensures { OnOk result (text.new ≡ text.old ++ text_of self.now) };
}

impl Spelled for bool {
    ghost text_of = { bool_text };

    fn spell(&self, _alloc: Global, text: &mut Text) -> Result<(), NoMemory> {
        if *self {
            text.append(b"true")
        } else {
            text.append(b"false")
        }
    }
}

impl Spelled for i64 {
    ghost text_of = { signed_decimal };

    fn spell(&self, _alloc: Global, text: &mut Text) -> Result<(), NoMemory> {
        text.append_number(*self)
    }
}

impl Spelled for u64 {
    ghost text_of = { hash_text };

    fn spell(&self, alloc: Global, text: &mut Text) -> Result<(), NoMemory> {
        let code = *self;
        if code == 0 {
            return text.append(b"null");
        }
        let digits = format!(in alloc; "{code:x}")?;
        text.append(b"0x")?;
        text.append(digits.as_bytes())
    }
}

impl Spelled for &[u8] {
    ghost text_of = { λ text. text.now };

    fn spell(&self, _alloc: Global, text: &mut Text) -> Result<(), NoMemory> {
        text.append(*self)
    }
}

/// The item, behind a blank unless it is the first.
fn spell_next<T: Spelled>(
    alloc: Global,
    is_first: bool,
    item: &T,
    text: &mut Text,
) -> Result<(), NoMemory>
    ensures { OnOk result (text.new ≡ text.old ++ (if is_first then T.text_of item.now else BLANK ∷ T.text_of item.now)) }
{
    if is_first {
        return item.spell(alloc, text);
    }
    text.push(BLANK)?;
    item.spell(alloc, text)
}

fn spell_items<T: Spelled>(alloc: Global, items: &[T], text: &mut Text) -> Result<(), NoMemory>
    ensures { OnOk result (text.new ≡ text.old ++ join_with_byte BLANK (map T.text_of items.now)) }
{
    let mut is_first = true;
    for item in items {
        spell_next(alloc, is_first, item, text)?;
        is_first = false;
    }
    Ok(())
}

fn spell_sequence<T: Spelled>(alloc: Global, items: &[T], text: &mut Text) -> Result<(), NoMemory>
    ensures { OnOk result (text.new ≡ text.old ++ sequence_text (map T.text_of items.now)) }
{
    text.append(b"[")?;
    spell_items(alloc, items, text)?;
    text.append(b"]")
}

/// The one text that saving writes for the value, which reads as the value again.
///
/// It is `missing`, `true` or `false`, a decimal number, `null` or `0x` and hexadecimal digits in lower case for a hash code,
/// a string's own text, or the items of a sequence between brackets with single blanks between them.
#[tactic(auto, using(crate::proofs::ReadBack::spelled_back))]
pub fn spell(alloc: Global, view: View<'_>) -> Result<Text, NoMemory>
    ensures spelled { IfOk result (λ text. text ≡ spelling (value_of view.entry)) }
    ensures read_back { (kind : Kind) → IsOfKind kind (value_of view.entry) → IsWritten (value_of view.entry)
        → value_of_text kind (spelling (value_of view.entry)) ≡ Some (value_of view.entry) }
{
    let mut text = Text::new(alloc);
    match view {
        View::Missing => text.append(b"missing")?,
        View::Bool(truth) => truth.spell(alloc, &mut text)?,
        View::Int(number) => number.spell(alloc, &mut text)?,
        View::Hash(code) => code.spell(alloc, &mut text)?,
        View::Str(bytes) => text.append(bytes)?,
        View::BoolSeq(truths) => spell_sequence(alloc, truths, &mut text)?,
        View::IntSeq(numbers) => spell_sequence(alloc, numbers, &mut text)?,
        View::HashSeq(codes) => spell_sequence(alloc, codes, &mut text)?,
        View::StrSeq(texts) => spell_sequence(alloc, texts, &mut text)?,
    }
    Ok(text)
}
