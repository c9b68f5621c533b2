// Claims, section by section.
ghost use Rattle.std.specs.Prelude.{◌≡◌, ◌++◌, IfOk, OnOk, flat_map};
ghost use Rattle.dk_claims.specs.Sections.{section_claims};

use crate::Section;
use dk_base::{List, NoMemory, Text};
use std::alloc::Global;

/// What a line of an assertion file says: that the text of an instance holds of all samples of the point of this name. In front of the
/// first heading the name is empty.
#[derive(Debug, Drop)]
pub struct Claim {
    /// The name of the heading above the line, as it stands there.
    pub point: Text,
    /// The line without a last count.
    pub text: Text,
}

// What the section claims of its point, behind the others.
fn push_claims(alloc: Global, claims: &mut List<Claim>, section: &Section) -> Result<(), NoMemory>
    ensures { OnOk result (claims.new ≡ claims.old ++ section_claims section.now) }
{
    let lines = section.lines.as_slice();
    for line in lines {
        let point = Text::from_slice(alloc, section.point.as_slice())?;
        let text = Text::from_slice(alloc, line.text.as_slice())?;
        claims.push(Claim { point, text })?;
    }
    Ok(())
}

/// What the sections claim, in the order of their lines.
pub(crate) fn claims_of(alloc: Global, sections: &[Section]) -> Result<List<Claim>, NoMemory>
    ensures { IfOk result (λ claims. claims ≡ flat_map section_claims sections.now) }
{
    let mut claims = List::new(alloc);
    for section in sections {
        push_claims(alloc, &mut claims, section)?;
    }
    Ok(claims)
}
