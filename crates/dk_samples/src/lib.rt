//! Samples as contracts see them: the values by variable, where variables agree, and the leaders of their classes.
#![tactic(auto)]

ghost use Rattle.std.specs.Prelude.{◌≡◌};
ghost use Rattle.dk_base.specs.Values.{value_of, values_of};
ghost use Rattle.dk_samples.specs.Leaders.{old_of};
ghost use Rattle.dk_samples.specs.Samples.{is_present, value_in};

use dk_base::{VarId, View};

/// The value of a variable in a sample, which is missing past the sample's end.
pub fn value_at<'a>(sample: &[View<'a>], v: VarId) -> View<'a>
    ensures { value_of result ≡ value_in (values_of sample.now) v }
{
    let place = v.0 as usize;
    if place < sample.len() {
        sample[place]
    } else {
        View::Missing
    }
}

/// Whether a value isn't the missing one.
pub fn is_present(view: View<'_>) -> bool
    ensures { result ≡ is_present (value_of view.entry) }
{
    !matches!(view, View::Missing)
}
