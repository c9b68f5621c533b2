// A text cut into its pieces: a line into words, a sequence into items.
ghost use Rattle.std.specs.Prelude.{◌≡◌, ◌∷◌, [], ◌<◌, ◌≤◌, length, take, drop, MatchOption, IfSome};
ghost use Rattle.dk_base.specs.Pieces.{is_blank as blank, outside, place_after, cuts, parts, behind, BeginsPiece, pieces};

pub(crate) mod blanks;

/// What cuts a text into pieces.
#[derive(Clone, Copy)]
pub(crate) enum Cut {
    /// Blanks and tabs, as between the words of a line.
    AtBlanksAndTabs,
    /// Blanks that stand in no quotes, as between the items of a sequence.
    AtBlanksOutsideQuotes,
}

/// Where a byte stands: in quotes or not, and there behind a backslash or not.
#[derive(Clone, Copy)]
pub(crate) struct Quoting {
    pub(crate) quoted: bool,
    pub(crate) escaped: bool,
}

const OUTSIDE: Quoting = Quoting {
    quoted: false,
    escaped: false,
};

/// Whether the byte is a blank or a tab.
pub fn is_blank(byte: u8) -> bool
    ensures { result ≡ blank byte }
{
    byte == b' ' || byte == b'\t'
}

fn place_after(cut: Cut, place: Quoting, byte: u8) -> Quoting
    ensures { result ≡ place_after cut place byte }
{
    match cut {
        Cut::AtBlanksAndTabs => place,
        Cut::AtBlanksOutsideQuotes => Quoting {
            quoted: if place.quoted {
                place.escaped || byte != b'"'
            } else {
                byte == b'"'
            },
            escaped: place.quoted && !place.escaped && byte == b'\\',
        },
    }
}

fn cuts(cut: Cut, place: Quoting, byte: u8) -> bool
    ensures { result ≡ cuts cut place byte }
{
    match cut {
        Cut::AtBlanksAndTabs => is_blank(byte),
        Cut::AtBlanksOutsideQuotes => !place.quoted && byte == b' ',
    }
}

/// How many bytes in front are no blank, tab or quote: they stand outside of quotes, and cut nothing.
fn plain_len(cut: Cut, text: &[u8]) -> usize
    ensures within { result ≤ length text.now }
    ensures plain { behind (take result text.now) (parts cut outside (drop result text.now)) ≡ parts cut outside text.now }
{
    for (i, byte) in text.iter().enumerate() {
        if is_blank(*byte) || *byte == b'"' {
            return i;
        }
    }
    text.len()
}

/// How many bytes stand in front of the first cut.
fn piece_len(cut: Cut, text: &[u8]) -> usize
    requires { BeginsPiece cut text.now }
    ensures positive { 0 < result }
    ensures within { result ≤ length text.now }
    ensures cut_off { pieces cut text.now ≡ take result text.now ∷ pieces cut (drop result text.now) }
{
    let mut place = OUTSIDE;
    let front = plain_len(cut, text);
    for i in front..text.len() {
        let byte = text[i];
        if cuts(cut, place, byte) {
            return i;
        }
        place = place_after(cut, place, byte);
    }
    text.len()
}

/// The first piece of the text and what is left behind it, or none where it has no piece.
pub(crate) fn next_piece(cut: Cut, text: &[u8]) -> Option<(&[u8], &[u8])>
    ensures first { MatchOption result (pieces cut text.now ≡ []) (λ r. pieces cut text.now ≡ r.0.now ∷ pieces cut r.1.now) }
    ensures shorter { IfSome result (λ r. length r.1.now < length text.now) }
{
    for (i, byte) in text.iter().enumerate() {
        if !cuts(cut, OUTSIDE, *byte) {
            let begun = &text[i..];
            let end = piece_len(cut, begun);
            return Some((&begun[..end], &begun[end..]));
        }
    }
    None
}
