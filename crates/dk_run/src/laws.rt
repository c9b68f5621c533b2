//! What the definitions of runs come to.
ghost use Rattle.dk_run.specs.Laws.{ResumedRunsGoOn, RunsBeginAtStarts, RunsEndAtStarts, StartsBeginAlike, EachStateHasAStart};

/// A run that is cut behind any of its files, saved, and resumed with the other files, comes to what the whole run comes to.
pub fn resumed_runs_go_on()
    ensures { ResumedRunsGoOn }
{}

/// A run begins with what a state file of at most 2^40 bytes can tell, as with no samples.
pub fn runs_begin_at_starts()
    ensures { RunsBeginAtStarts }
{}

/// A run that begins so, and comes to its end without a fault, ends with what a state file can tell, where each point has at most 2^40 own
/// samples. So its state can be resumed.
pub fn runs_end_at_starts()
    ensures { RunsEndAtStarts }
{}

/// What a run begins with it also begins with as far as reading goes: so what is said of its reading holds behind each history of which its
/// state file is the state.
pub fn starts_begin_alike()
    ensures { StartsBeginAlike }
{}

/// A run that resumes a state has a start, as far as reading goes, also where no history has this state: so what is said of its reading is
/// said behind each state.
pub fn each_state_has_a_start()
    ensures { EachStateHasAStart }
{}
