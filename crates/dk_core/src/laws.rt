//! What can be saved, and what a session stands for.
ghost use Rattle.dk_core.specs.Resuming.{NoSamplesAreAStart};
ghost use Rattle.dk_core.specs.Standing.{ReadersStandToo};

/// What has no samples can be saved.
pub fn no_samples_are_a_start()
    ensures { NoSamplesAreAStart }
{}

/// Where all that a session keeps stands for a history, its reader does too: so what is said of its reading holds behind each history that
/// it stands for.
pub fn readers_stand_too()
    ensures { ReadersStandToo }
{}
