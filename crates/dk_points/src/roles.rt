// What the name of a point says.
ghost use Rattle.std.specs.Prelude.{◌≡◌, ◌≤◌, ◌&&◌, ◌++◌, length, IfOk, drop, take, codes};
ghost use Rattle.std.specs.List.{list_all};
ghost use Rattle.dk_points.specs.Names.{combined_name, combined_of, entry_name, is_digit, is_exit, is_separator, is_subexit, is_subexit_tag, method_len, method_of, role_of, role_of_tag, tag_of};

use dk_base::{NoMemory, Text, same_bytes};
use std::alloc::Global;

/// The role of a point in the calls of its method.
#[derive(Clone, Copy, Debug, PartialEq, Eq)]
pub enum Role {
    /// The entry, of the tag `ENTER`.
    Entry,
    /// The combined exit, of the tag `EXIT`.
    Combined,
    /// A subexit, whose tag is `EXIT` and one digit or more.
    Subexit,
    /// Neither an entry nor an exit.
    Plain,
}

impl Role {
    /// Whether it is that of a combined exit or of a subexit.
    pub(crate) fn is_exit(self) -> bool
        ensures { result ≡ is_exit self }
    {
        match self {
            Role::Combined => true,
            Role::Subexit => true,
            _ => false,
        }
    }

    pub(crate) fn is_subexit(self) -> bool
        ensures { result ≡ is_subexit self }
    {
        match self {
            Role::Subexit => true,
            _ => false,
        }
    }
}

fn is_separator(name: &[u8], place: usize) -> bool
    requires { place ≤ length name.now }
    ensures { result ≡ is_separator name.now place }
{
    name[place..].starts_with(b":::")
}

/// How many bytes stand in front of the last `:::`, or in a name without one.
fn method_len(name: &[u8]) -> usize
    ensures value { result ≡ method_len name.now }
    ensures within { result ≤ length name.now }
{
    let mut len = name.len();
    for place in 0..name.len() {
        if is_separator(name, place) {
            len = place;
        }
    }
    len
}

fn method_of(name: &[u8]) -> &[u8]
    ensures { result.now ≡ method_of name.now }
{
    &name[..method_len(name)]
}

fn tag_of(name: &[u8]) -> &[u8]
    ensures { result.now ≡ tag_of name.now }
{
    let len = method_len(name);
    if name.len() - len < 3 {
        return &[];
    }
    &name[len + 3..]
}

fn are_digits(bytes: &[u8]) -> bool
    ensures { result ≡ list_all is_digit bytes.now }
{
    for byte in bytes {
        if *byte < b'0' || *byte > b'9' {
            return false;
        }
    }
    true
}

fn is_subexit_tag(tag: &[u8]) -> bool
    ensures { result ≡ is_subexit_tag tag.now }
{
    tag.starts_with(b"EXIT") && tag.len() > 4 && are_digits(&tag[4..])
}

fn role_of_tag(tag: &[u8]) -> Role
    ensures { result ≡ role_of_tag tag.now }
{
    if same_bytes(tag, b"ENTER") {
        Role::Entry
    } else if same_bytes(tag, b"EXIT") {
        Role::Combined
    } else if is_subexit_tag(tag) {
        Role::Subexit
    } else {
        Role::Plain
    }
}

/// The role of the point of this name.
#[tactic(auto, unfolding(crate::specs::Names::role_of))]
pub fn role_of(name: &[u8]) -> Role
    ensures { result ≡ role_of name.now }
{
    role_of_tag(tag_of(name))
}

fn with_tag(alloc: Global, name: &[u8], tag: &[u8]) -> Result<Text, NoMemory>
    ensures { IfOk result (λ text. text ≡ method_of name.now ++ tag.now) }
{
    let mut text = Text::from_slice(alloc, method_of(name))?;
    text.append(tag)?;
    Ok(text)
}

/// The name of the entry of this point's method.
pub(crate) fn entry_name(alloc: Global, name: &[u8]) -> Result<Text, NoMemory>
    ensures { IfOk result (λ text. text ≡ entry_name name.now) }
{
    with_tag(alloc, name, b":::ENTER")
}

/// The name of the combined exit of this point's method.
pub(crate) fn combined_name(alloc: Global, name: &[u8]) -> Result<Text, NoMemory>
    ensures { IfOk result (λ text. text ≡ combined_name name.now) }
{
    with_tag(alloc, name, b":::EXIT")
}

/// The name of the combined exit, of a subexit.
pub(crate) fn combined_of(alloc: Global, name: &[u8]) -> Result<Option<Text>, NoMemory>
    ensures { IfOk result (λ found. found ≡ combined_of name.now) }
{
    if role_of(name).is_subexit() {
        Ok(Some(combined_name(alloc, name)?))
    } else {
        Ok(None)
    }
}
