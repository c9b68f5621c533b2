// Verdicts, and their lines.
ghost use Rattle.std.specs.Prelude.{◌≡◌, ◌++◌, ℕ, List, OnOk};
ghost use Rattle.dk_verdicts.specs.Reports.{IsNamed, verdict_line, verdict_text};

use dk_base::{NoMemory, Text};
use dk_claims::Claim;

/// What the records say of a claim.
#[derive(Clone, Copy, Debug, PartialEq, Eq, Drop)]
pub enum Verdict {
    /// No tuple violates it. So many tuples were tested, at most 2^64 - 1.
    Holds { tuples: u64 },
    /// The first record that violates it begins at this line of the file at this place.
    Violated { file: usize, line: u64 },
    /// No point has the claim's name, or none of its instances has the text.
    Unknown,
}

// Writes what a verdict is behind the text.
fn push_words(text: &mut Text, verdict: Verdict, file: &str) -> Result<(), NoMemory>
    ensures { OnOk result ((name : ℕ → List ℕ) → IsNamed name verdict file.now → text.new ≡ text.old ++ verdict_text name verdict) }
{
    match verdict {
        Verdict::Holds { tuples } => {
            text.append(b"ok [")?;
            text.append_number(tuples)?;
            text.append(b"]")
        }
        Verdict::Violated { file: _, line } => {
            text.append(b"violated at ")?;
            text.append(file.as_bytes())?;
            text.append(b":")?;
            text.append_number(line)
        }
        Verdict::Unknown => text.append(b"unknown"),
    }
}

/// Writes the line of a claim behind the text: the point's name and the text, as they stand in the claim, and `ok [K]`,
/// `violated at FILE:LINE` or `unknown`, with `: ` between them. The name is that of the verdict's file; of a verdict that tells no file it
/// isn't looked at. After an error the text may hold a part of the line.
pub fn push_verdict(
    text: &mut Text,
    claim: &Claim,
    verdict: Verdict,
    file: &str,
) -> Result<(), NoMemory>
    ensures { OnOk result ((name : ℕ → List ℕ) → IsNamed name verdict file.now → text.new ≡ text.old ++ verdict_line name claim.now verdict) }
{
    text.append(claim.point.as_slice())?;
    text.append(b": ")?;
    text.append(claim.text.as_slice())?;
    text.append(b": ")?;
    push_words(text, verdict, file)?;
    text.push(b'\n')
}
