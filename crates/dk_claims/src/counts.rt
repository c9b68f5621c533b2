// Counts at the ends of lines.
ghost use Rattle.std.specs.Prelude.{◌≡◌, MatchOption};
ghost use Rattle.dk_claims.specs.Counts.{digits_in, last_count, without_count};
ghost use Rattle.dk_claims.specs.Steps.{IsWithoutDigits};

use dk_base::parse_natural;

// The text without the digits at its end.
fn without_digits(text: &[u8]) -> &[u8]
    ensures { IsWithoutDigits text.now result.now }
{
    let mut left = text;
    'digits: while let [rest @ .., last] = left {
        if !last.is_ascii_digit() {
            return left;
        }
        left = rest;
    }
    left
}

// What stands in front of a last count, where there is one.
fn front_of_count(text: &[u8]) -> Option<&[u8]>
    ensures { MatchOption result (without_count text.now ≡ text.now) (λ front. without_count text.now ≡ front.now) }
{
    let numbered = text.strip_suffix(b"]")?;
    let opened = without_digits(numbered);
    if opened.len() == numbered.len() {
        return None;
    }
    opened.strip_suffix(b"  [")
}

/// The text without a last count, such as `  [12]`.
pub(crate) fn without_count(text: &[u8]) -> &[u8]
    ensures { result.now ≡ without_count text.now }
{
    front_of_count(text).unwrap_or(text)
}

// What stands between the brackets of a count.
fn digits_in(count: &[u8]) -> &[u8]
    ensures { result.now ≡ digits_in count.now }
{
    if count.len() < 4 {
        return b"";
    }
    &count[3..count.len() - 1]
}

/// The number that the last count of a text tells, where it has one, and 64 bits hold the number.
#[tactic(auto, using(crate::proofs::Counting::without_count_fits))]
pub(crate) fn last_count(text: &[u8]) -> Option<u64>
    ensures { result ≡ last_count text.now }
{
    let front = without_count(text);
    parse_natural(digits_in(&text[front.len()..]))
}
