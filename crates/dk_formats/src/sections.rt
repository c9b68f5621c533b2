// A section of a report.
ghost use Rattle.std.specs.Prelude.{◌≡◌, ◌<◌, ◌^◌, OnOk, length};
ghost use Rattle.dk_formats.specs.Steps.{AddsSection};

use crate::formats::Sectioned;
use crate::functions::push_function;
use crate::json::push_json;
use dk_base::{NoMemory, Text, VarInfo};
use dk_claims::Section;
use std::alloc::Global;

/// A section, behind the text. The variables are those of its point, derived ones included; none where the point is not known, as of a
/// name that no declaration has. There must be fewer than 2^32 of them.
pub(crate) fn push_section(
    alloc: Global,
    text: &mut Text,
    format: Sectioned,
    vars: &[VarInfo],
    section: &Section,
) -> Result<(), NoMemory>
    requires { length vars.now < 2 ^ 32 }
    ensures { OnOk result (AddsSection format vars.now section.now text.old text.new) }
{
    match format {
        Sectioned::Json => push_json(alloc, text, vars, section),
        Sectioned::In(language) => push_function(alloc, text, language, vars, section),
    }
}
