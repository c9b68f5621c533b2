//! What the definitions of calls come to.
ghost use Rattle.dk_calls.specs.Fitting.{ExitValuesFit};
ghost use Rattle.dk_calls.specs.Untaken.{UntakenEntriesWait};

/// The values that an exit gets are as many as the base variables of its point, each is of its variable's kind, and each is one that
/// some text writes, if that holds of the values of the exit's and the entry's records for the variables that their points declare.
pub fn exit_values_fit()
    ensures { ExitValuesFit }
{}

/// An entry waits behind the records of its file exactly where it stands among them and no exit behind it took it. An exit takes, of those
/// that wait before it: with a nonce, the latest of its method and nonce; without one, the latest of its method that has none, and all
/// later ones that have none.
pub fn untaken_entries_wait()
    ensures { UntakenEntriesWait }
{}
