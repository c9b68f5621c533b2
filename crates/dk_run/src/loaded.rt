// The last report of a state that is loaded.
ghost use Rattle.std.specs.Prelude.{◌≡◌, All};
ghost use Rattle.dk_core.specs.Selecting.{SelectsBy};
ghost use Rattle.dk_hierarchy.specs.Standing.{AreEnginesOf};
ghost use Rattle.dk_state.specs.Spelling.{IsOwnTable};
ghost use Rattle.dk_run.specs.Commands.{is_selected as selects_name};
ghost use Rattle.dk_run.specs.Loaded.{ReportsLoaded};

use crate::choosing::{is_selected, options_of};
use crate::reporting::tell_last;
use dk_base::NoMemory;
use dk_command_line::Command;
use dk_core::Session;
use dk_events::Ended;
use dk_io::Sinks;
use dk_state::Loaded;
use std::alloc::Global;

// Of the points that the selection answers `true` to.
fn report_selected<F: Fn(&[u8]) -> bool + Drop, S: Sinks>(
    alloc: Global,
    command: &Command,
    select: F,
    loaded: Loaded,
    sinks: &mut S,
) -> Ended
    requires callable { F.IsAlwaysCallable select }
    requires selects { SelectsBy (F.post select) (selects_name command.now) }
    requires table { IsOwnTable loaded.points }
    requires engines { AreEnginesOf loaded.points loaded.engines × All (λ e. e.grammar ≡ loaded.grammar) loaded.engines }
    ensures { ReportsLoaded command.now loaded (S.written sinks.old) (S.written sinks.new) (S.faults sinks.old) (S.faults sinks.new) result }
{
    match Session::of_loaded(alloc, select, options_of(command), loaded) {
        Ok(session) => match tell_last(alloc, command, &session, sinks) {
            Ok(()) => Ended::Done,
            Err(halt) => halt.status(),
        },
        Err(NoMemory) => Ended::NoMemory,
    }
}

/// Writes the last report of a state that is loaded, as a run of the command does that begins with it and reads no block: the last report of
/// every history whose the state is. Done, or why the report is not written whole: Write or NoMemory.
pub fn report_loaded<S: Sinks>(
    alloc: Global,
    command: &Command,
    loaded: Loaded,
    sinks: &mut S,
) -> Ended
    requires table { IsOwnTable loaded.points }
    requires engines { AreEnginesOf loaded.points loaded.engines × All (λ e. e.grammar ≡ loaded.grammar) loaded.engines }
    ensures { ReportsLoaded command.now loaded (S.written sinks.old) (S.written sinks.new) (S.faults sinks.old) (S.faults sinks.new) result }
{
    report_selected(
        alloc,
        command,
        |name: &[u8]| is_selected(command, name),
        loaded,
        sinks,
    )
}
