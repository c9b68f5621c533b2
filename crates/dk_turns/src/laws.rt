//! What the definitions come to, in the words of the format.
ghost use Rattle.dk_turns.specs.Laws.{RoundsGoOn};

/// A round stands in front, and what it leaves of the files follows in further rounds.
pub fn rounds_go_on()
    ensures { RoundsGoOn }
{}
