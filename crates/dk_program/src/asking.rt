// What the arguments ask for.
ghost use Rattle.std.specs.Prelude.{◌≡◌, IfErr, IfOk, OnOk, Some, map, string_bytes};
ghost use Rattle.dk_arguments.specs.Requests.{request_of};
ghost use Rattle.dk_arguments.specs.declared.request.Request.TheVariants as request;
ghost use Rattle.dk_program.specs.Ending.{EndsWithoutRun};

use crate::telling::{tell_help, tell_usage, tell_version};
use dk_arguments::{Arguments, ArgumentsFault, Request, read_arguments};
use dk_events::Ended;
use dk_io::Sinks;
use std::alloc::Global;

/// What a run is to do, by the arguments. Otherwise the program ends without one, by this status: help or the version, where they ask for
/// it, is written, or the usage, where they are refused; or memory ran out.
pub fn asked_run<A: Arguments, S: Sinks>(
    alloc: Global,
    given: &[String],
    sinks: &mut S,
) -> Result<A, Ended>
    ensures asked { IfOk result (λ a. request_of A.command A.meant (map string_bytes given.now) ≡ Some (request.Run a)) }
    // Nothing is written in front of a run.
    ensures unwritten { OnOk result (sinks.new ≡ sinks.old) }
    ensures ends { IfErr result (EndsWithoutRun A.command (request_of A.command A.meant (map string_bytes given.now)) (S.written sinks.old) (S.written sinks.new) (S.faults sinks.old) (S.faults sinks.new)) }
{
    match read_arguments::<A>(alloc, given) {
        Ok(Request::Run(arguments)) => Ok(arguments),
        Ok(Request::Help) => Err(tell_help::<A, S>(sinks)),
        Ok(Request::Version) => Err(tell_version::<A, S>(sinks)),
        Err(ArgumentsFault::Refused) => Err(tell_usage::<A, S>(sinks)),
        Err(ArgumentsFault::NoMemory) => Err(Ended::NoMemory),
    }
}
