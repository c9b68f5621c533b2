// The records of a call.
ghost use Rattle.std.specs.Prelude.{◌≡◌, ◌≤◌, ◌<◌, ◌++◌, ◌∷◌, OnOk, map, codes, if◌then◌else◌};
ghost use Rattle.std.specs.Fmt.{decimal};
ghost use Rattle.std.specs.List.{join_with_byte};
ghost use Rattle.dk_generate.specs.Calls.{IsAllowed, after_call, last_item};
ghost use Rattle.dk_generate.specs.Records.{call_text, head_text, items_text, nonce_text, number_text, pop_text, push_text, stack_text, top_text};

use crate::calls::{Call, Stack, after_call};
use dk_base::{NoMemory, Text};

const BLANK: u8 = b' ';

// The call's number as the nonce.
fn push_nonce(text: &mut Text, number: u64) -> Result<(), NoMemory>
    ensures { OnOk result (text.new ≡ text.old ++ nonce_text number) }
{
    text.append(b"this_invocation_nonce\n")?;
    text.append_number(number)?;
    text.append(b"\n")
}

// The lines of a record in front of its values, behind a blank line.
fn push_head(text: &mut Text, point: &[u8], number: u64) -> Result<(), NoMemory>
    ensures { OnOk result (text.new ≡ text.old ++ head_text point.now number) }
{
    text.append(b"\n")?;
    text.append(point)?;
    text.append(b"\n")?;
    push_nonce(text, number)
}

// The variable with a small number.
#[tactic(auto, unfolding(crate::specs::Records::number_text))]
fn push_value(text: &mut Text, name: &[u8], number: u8) -> Result<(), NoMemory>
    ensures { OnOk result (text.new ≡ text.old ++ number_text name.now number) }
{
    text.append(name)?;
    text.append(b"\n")?;
    text.append_number(number)?;
    text.append(b"\n1\n")
}

// The place of the last item.
#[tactic(auto, unfolding(crate::specs::Records::top_text))]
fn push_top(text: &mut Text, height: usize) -> Result<(), NoMemory>
    requires { height ≤ 8 }
    ensures { OnOk result (text.new ≡ text.old ++ top_text height) }
{
    text.append(b"this.top\n")?;
    text.append_number(height as i64 - 1)?;
    text.append(b"\n1\n")
}

// The item, behind a blank unless it is the first.
fn push_next(text: &mut Text, is_first: bool, item: u8) -> Result<(), NoMemory>
    ensures { OnOk result (text.new ≡ text.old ++ (if is_first then decimal item else BLANK ∷ decimal item)) }
{
    if is_first {
        return text.append_number(item);
    }
    text.push(BLANK)?;
    text.append_number(item)
}

// The items with a blank between each two.
fn push_joined(text: &mut Text, items: &[u8]) -> Result<(), NoMemory>
    ensures { OnOk result (text.new ≡ text.old ++ join_with_byte BLANK (map decimal items.now)) }
{
    let mut is_first = true;
    for item in items {
        push_next(text, is_first, *item)?;
        is_first = false;
    }
    Ok(())
}

fn push_items(text: &mut Text, items: &[u8]) -> Result<(), NoMemory>
    ensures { OnOk result (text.new ≡ text.old ++ items_text items.now) }
{
    text.append(b"this.items[..]\n[")?;
    push_joined(text, items)?;
    text.append(b"]\n1\n")
}

#[tactic(auto, unfolding(crate::specs::Records::stack_text))]
fn push_stack(text: &mut Text, stack: &Stack) -> Result<(), NoMemory>
    requires { stack.now.height ≤ 8 }
    ensures { OnOk result (text.new ≡ text.old ++ stack_text stack.now) }
{
    push_top(text, stack.height)?;
    push_items(text, stack.items.as_slice())
}

// The item that the next pop returns.
fn last_item(stack: &Stack) -> u8
    requires some { 0 < stack.now.height }
    requires room { stack.now.height ≤ 8 }
    ensures { result ≡ last_item stack.now }
{
    stack.items[stack.height - 1]
}

fn push_push(
    text: &mut Text,
    number: u64,
    before: &Stack,
    item: u8,
    after: &Stack,
) -> Result<(), NoMemory>
    requires before { before.now.height ≤ 8 }
    requires after { after.now.height ≤ 8 }
    ensures { OnOk result (text.new ≡ text.old ++ push_text number before.now item after.now) }
{
    push_head(text, b"Stack.push(int):::ENTER", number)?;
    push_stack(text, before)?;
    push_value(text, b"x", item)?;
    push_head(text, b"Stack.push(int):::EXIT1", number)?;
    push_stack(text, after)?;
    push_value(text, b"x", item)
}

fn push_pop(
    text: &mut Text,
    number: u64,
    before: &Stack,
    item: u8,
    after: &Stack,
) -> Result<(), NoMemory>
    requires before { before.now.height ≤ 8 }
    requires after { after.now.height ≤ 8 }
    ensures { OnOk result (text.new ≡ text.old ++ pop_text number before.now item after.now) }
{
    push_head(text, b"Stack.pop():::ENTER", number)?;
    push_stack(text, before)?;
    push_head(text, b"Stack.pop():::EXIT2", number)?;
    push_stack(text, after)?;
    push_value(text, b"return", item)
}

/// The two records of a call of this number, behind the text. After an error the text may hold a part of them.
pub(crate) fn push_call(
    text: &mut Text,
    number: u64,
    stack: &Stack,
    call: Call,
) -> Result<(), NoMemory>
    requires room { stack.now.height ≤ 8 }
    requires allowed { IsAllowed stack.now call }
    ensures { OnOk result (text.new ≡ text.old ++ call_text number stack.now call) }
{
    let after = after_call(*stack, call);
    match call {
        Call::Push(item) => push_push(text, number, stack, item, &after),
        Call::Pop => push_pop(text, number, stack, last_item(stack), &after),
    }
}
