// Reading an assertion file.
ghost use Rattle.std.specs.Prelude.{◌≡◌, ◌≤◌, [], IfSome, IsErrOf, false, true};
ghost use Rattle.dk_io.specs.Outside.{Rose};
ghost use Rattle.dk_lines.specs.Reading.{left_of};
ghost use Rattle.dk_claims.specs.Reading.{ClaimsGive, SectionsGive};
ghost use Rattle.dk_claims.specs.Steps.{TakesLine};

use crate::claims::claims_of;
use crate::{Claim, Section, Sections};
use dk_base::{List, NoMemory};
use dk_io::Inputs;
use dk_lines::{LineFault, Lines};
use std::alloc::Global;

// Takes the next line; false where the file ends.
fn take_line<I: Inputs>(
    sections: &mut Sections,
    inputs: &mut I,
    lines: &mut Lines,
) -> Result<bool, LineFault>
    requires { lines.old.is_started ≡ true }
    ensures takes { TakesLine sections.old lines.old (left_of lines.old (I.rest inputs.old)) result sections.new lines.new (left_of lines.new (I.rest inputs.new)) }
    ensures files { I.file inputs.new ≡ I.file inputs.old }
    ensures later { I.faults inputs.old ≤ I.faults inputs.new }
    ensures cause { IsErrOf result LineFault.Read → Rose (I.faults inputs.old) (I.faults inputs.new) }
{
    match lines.next(inputs)? {
        Some(line) => match sections.line(line.bytes) {
            Ok(()) => Ok(true),
            Err(NoMemory) => Err(LineFault::NoMemory),
        },
        None => Ok(false),
    }
}

/// Reads what is left of the started file to its end: its sections. Such a file holds no fault but a line that is too long, or bytes that
/// are too many. Then, as at the file's end and where a read failed, no file is started; after want of memory one may be.
pub fn read_sections<I: Inputs>(
    alloc: Global,
    inputs: &mut I,
    lines: &mut Lines,
) -> Result<List<Section>, LineFault>
    requires { lines.old.is_started ≡ true }
    ensures gives { IfSome (left_of lines.old (I.rest inputs.old))
        (λ xs. SectionsGive lines.old xs result lines.new (left_of lines.new (I.rest inputs.new))) }
    ensures limits { lines.new.limits ≡ lines.old.limits }
    ensures ended { ¬ IsErrOf result LineFault.NoMemory → lines.new.is_started ≡ false }
    ensures emptied { IsErrOf result LineFault.Read → lines.new.ahead ≡ [] }
    ensures files { I.file inputs.new ≡ I.file inputs.old }
    ensures later { I.faults inputs.old ≤ I.faults inputs.new }
    ensures cause { IsErrOf result LineFault.Read → Rose (I.faults inputs.old) (I.faults inputs.new) }
{
    let mut sections = Sections::new(alloc);
    'reading: loop {
        match take_line(&mut sections, inputs, lines) {
            Ok(true) => continue 'reading,
            Ok(false) => {
                return match sections.into_list() {
                    Ok(list) => Ok(list),
                    Err(NoMemory) => Err(LineFault::NoMemory),
                };
            }
            Err(fault) => return Err(fault),
        }
    }
}

/// Reads what is left of the started file to its end, as `read_sections` does: what its sections claim.
pub fn read_claims<I: Inputs>(
    alloc: Global,
    inputs: &mut I,
    lines: &mut Lines,
) -> Result<List<Claim>, LineFault>
    requires { lines.old.is_started ≡ true }
    ensures gives { IfSome (left_of lines.old (I.rest inputs.old))
        (λ xs. ClaimsGive lines.old xs result lines.new (left_of lines.new (I.rest inputs.new))) }
    ensures limits { lines.new.limits ≡ lines.old.limits }
    ensures ended { ¬ IsErrOf result LineFault.NoMemory → lines.new.is_started ≡ false }
    ensures emptied { IsErrOf result LineFault.Read → lines.new.ahead ≡ [] }
    ensures files { I.file inputs.new ≡ I.file inputs.old }
    ensures later { I.faults inputs.old ≤ I.faults inputs.new }
    ensures cause { IsErrOf result LineFault.Read → Rose (I.faults inputs.old) (I.faults inputs.new) }
{
    let sections = read_sections(alloc, inputs, lines)?;
    match claims_of(alloc, sections.as_slice()) {
        Ok(claims) => Ok(claims),
        Err(NoMemory) => Err(LineFault::NoMemory),
    }
}
