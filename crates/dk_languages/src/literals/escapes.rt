// The escapes of strings.
ghost use Rattle.std.specs.Prelude.{◌≡◌, fold, if◌then◌else◌};
ghost use Rattle.dk_languages.specs.Literals.Escapes.{after_escape, has_known_escapes, is_escaped_alone, is_octal, is_outside, is_shown};

/// Where a byte of a string stands.
#[derive(Clone, Copy, Debug, PartialEq, Eq)]
pub enum Escape {
    /// The byte stands outside of all escapes.
    Outside,
    /// The byte stands after a backslash.
    Behind,
    /// Where two more octal digits belong to the escape.
    TwoDigits,
    /// Where one more octal digit does.
    OneDigit,
    /// Behind an escape that isn't known.
    Unknown,
}

fn is_octal(byte: u8) -> bool
    ensures { result ≡ is_octal byte }
{
    b'0' <= byte && byte <= b'7'
}

fn is_shown(byte: u8) -> bool
    ensures { result ≡ is_shown byte }
{
    32 <= byte && byte != 127
}

fn is_escaped_alone(byte: u8) -> bool
    ensures { result ≡ is_escaped_alone byte }
{
    byte == b'\\' || byte == b'"' || byte == b'n' || byte == b'r' || byte == b't'
}

// Behind a byte in no escape.
fn after_plain(byte: u8) -> Escape
    ensures { result ≡ after_escape Escape.Outside byte }
{
    if byte == b'\\' {
        Escape::Behind
    } else if is_shown(byte) {
        Escape::Outside
    } else {
        Escape::Unknown
    }
}

// Behind the byte that a backslash takes.
fn after_backslash(byte: u8) -> Escape
    ensures { result ≡ after_escape Escape.Behind byte }
{
    if is_escaped_alone(byte) {
        Escape::Outside
    } else if byte == b'0' || byte == b'1' {
        Escape::TwoDigits
    } else {
        Escape::Unknown
    }
}

// Behind a byte that is to be an octal digit.
fn after_digit(byte: u8, next: Escape) -> Escape
    ensures { result ≡ (if is_octal byte then next else Escape.Unknown) }
{
    if is_octal(byte) {
        next
    } else {
        Escape::Unknown
    }
}

fn after(escape: Escape, byte: u8) -> Escape
    ensures { result ≡ after_escape escape byte }
{
    match escape {
        Escape::Outside => after_plain(byte),
        Escape::Behind => after_backslash(byte),
        Escape::TwoDigits => after_digit(byte, Escape::OneDigit),
        Escape::OneDigit => after_digit(byte, Escape::Outside),
        Escape::Unknown => Escape::Unknown,
    }
}

// Where a byte behind these would stand.
fn behind(bytes: &[u8]) -> Escape
    ensures { result ≡ fold after_escape Escape.Outside bytes.now }
{
    let mut escape = Escape::Outside;
    for byte in bytes {
        escape = after(escape, *byte);
    }
    escape
}

/// Whether Python and C read the string's escapes as they are meant in a trace.
pub(crate) fn has_known_escapes(bytes: &[u8]) -> bool
    ensures { result ≡ has_known_escapes bytes.now }
{
    matches!(behind(bytes), Escape::Outside)
}
