// What options let through.
ghost use Rattle.std.specs.Prelude.{◌≡◌, not};
ghost use Rattle.dk_report.specs.Keeping.{drops};

use crate::Options;
use dk_filters::Facts;

// Whether a filter that is on has its fact.
fn drops(options: &Options, facts: Facts) -> bool
    ensures { result ≡ drops options.now facts }
{
    facts.few
        || (facts.incomparable && !options.keep_incomparable)
        || (facts.member && !options.keep_members)
        || (facts.implied && !options.keep_implied)
        || (facts.constant && !options.keep_constant)
        || (facts.parent && !options.keep_parent)
}

/// Whether the options let an instance with these facts through.
pub(crate) fn keeps(options: &Options, facts: Facts) -> bool
    ensures { result ≡ not (drops options.now facts) }
{
    !drops(options, facts)
}
