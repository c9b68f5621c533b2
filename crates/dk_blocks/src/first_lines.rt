// First lines that are plainly those of sample records.
ghost use Rattle.std.specs.Prelude.{◌≡◌, ◌∷◌, ℕ, List, None, true, false, take};
ghost use Rattle.std.specs.Str.{bytes_eq};
ghost use Rattle.dk_decl.specs.Headers.{header_line};
ghost use Rattle.dk_blocks.specs.History.{is_declaration, is_list_of_implementors};

use dk_decl::Header;

// Whether the line begins with these two bytes. Where it does not, no front of it is a word that does.
#[tactic(auto, using(crate::proofs::FirstLines::empty_front, crate::proofs::FirstLines::short_front, crate::proofs::FirstLines::other_front))]
fn begins_with(bytes: &[u8], first: u8, second: u8) -> bool
    ensures { result ≡ false → (len : ℕ) (rest : List ℕ) → bytes_eq (take len bytes.now) (first ∷ second ∷ rest) ≡ false }
{
    match bytes {
        [] => false,
        [_] => false,
        [a, b, ..] => *a == first && *b == second,
    }
}

// Whether the line is no header line, as its first two bytes show.
fn is_no_header(header: &Header, bytes: &[u8]) -> bool
    ensures { result ≡ true → header_line header.now bytes.now ≡ None }
{
    let mut header = *header;
    if header.end().is_err() {
        return false;
    }
    if begins_with(bytes, b'V', b'a') {
        return false;
    }
    if begins_with(bytes, b'v', b'a') {
        return false;
    }
    if begins_with(bytes, b'd', b'e') {
        return false;
    }
    !begins_with(bytes, b'i', b'n')
}

// Whether the line begins no declaration and no list of implementors, as its first two bytes show.
fn is_no_declaration(bytes: &[u8]) -> bool
    ensures declaration { result ≡ true → is_declaration bytes.now ≡ false }
    ensures list { result ≡ true → is_list_of_implementors bytes.now ≡ false }
{
    if begins_with(bytes, b'p', b'p') {
        return false;
    }
    if begins_with(bytes, b'D', b'E') {
        return false;
    }
    !begins_with(bytes, b'L', b'i')
}

/// Whether a line that is no comment begins a sample record, as its first two bytes show. Of most records they do.
pub(crate) fn is_plainly_sample(header: &Header, bytes: &[u8]) -> bool
    ensures header { result ≡ true → header_line header.now bytes.now ≡ None }
    ensures declaration { result ≡ true → is_declaration bytes.now ≡ false }
    ensures list { result ≡ true → is_list_of_implementors bytes.now ≡ false }
{
    is_no_header(header, bytes) && is_no_declaration(bytes)
}
