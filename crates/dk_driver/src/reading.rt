// Reading files, one after another.
ghost use Rattle.std.specs.Prelude.{◌≡◌, ◌≢◌, ◌≤◌, ◌<◌, ◌⊎◌, [], List, ℕ, length, Err, IfErr, IfOk, IfSome, IsErrOf, true, false};
ghost use Rattle.dk_blocks.specs.History.{History};
ghost use Rattle.dk_events.specs.Standing.{ignores_of, over_of};
ghost use Rattle.dk_io.specs.Outside.{Absent, Holds, Rose};
ghost use Rattle.dk_lines.specs.Reading.{left_of, room_of};
ghost use Rattle.dk_driver.specs.AllFiles.{FilesGive, TracesAreReadTo};
ghost use Rattle.dk_driver.specs.Consuming.{nothing_told};
ghost use Rattle.dk_driver.specs.Files.{file_name_at};
ghost use Rattle.dk_driver.specs.Reads.{HasCause, IsComplete, IsPlaced, ReadingSays};
ghost use Rattle.dk_driver.specs.Standing.{StandsBehind, points_of};
ghost use Rattle.dk_driver.specs.Trails.{Step};
ghost use Rattle.dk_driver.specs.Walks.{line_limit};
ghost use Rattle.dk_driver.specs.WholeFile.{FileGives, StartedGives};

use crate::fault::FileFault;
use crate::{Consumer, Feed, FilesFault, Traces};
use bumpalo::Bump;
use dk_arguments::Word;
use dk_io::{Failed, Inputs};
use dk_lines::Lines;
use std::alloc::Global;

// Reads the started file, which has this place among the files, to its end.
fn read_started<C: Consumer, I: Inputs>(
    feed: Feed<C>,
    place: usize,
    inputs: &mut I,
    lines: &mut Lines,
) -> Result<Feed<C>, FileFault>
    requires fits { C.fits feed.consumer (points_of feed) }
    requires started { lines.old.is_started ≡ true }
    requires begins { over_of feed.events ≡ false }
    ensures fits { IfOk result (λ next. C.fits next.consumer (points_of next)) }
    ensures gives { (h : History) (steps : List Step) → StandsBehind C.stands feed h steps → IfSome (left_of lines.old (I.rest inputs.old))
        (λ xs. StartedGives C.stands (ignores_of feed.events) place h steps lines.old xs result lines.new (left_of lines.new (I.rest inputs.new))) }
    ensures given { IfOk result (λ next. C.given next.consumer ≡ C.given feed.consumer) }
    ensures counts { IfOk result (λ next. (over_of next.events ≡ false) × (ignores_of next.events ≡ ignores_of feed.events)) }
    ensures started { result ≢ Err FileFault.Start }
    ensures limits { lines.new.limits ≡ lines.old.limits }
    ensures emptied { IsErrOf result FileFault.Read → lines.new.ahead ≡ [] }
    ensures files { I.file inputs.new ≡ I.file inputs.old }
    ensures later { I.faults inputs.old ≤ I.faults inputs.new }
    ensures cause { IsErrOf result FileFault.Read → Rose (I.faults inputs.old) (I.faults inputs.new) }
{
    let mut feed = feed;
    let mut arena = Bump::new(feed.alloc);
    'steps: loop {
        match feed.next(place, &mut arena, inputs, lines) {
            Ok(true) => continue 'steps,
            Ok(false) => return Ok(feed.end_file()),
            Err(fault) => return Err(FileFault::from(fault)),
        }
    }
}

// Reads the file at this place from its start to its end.
fn read_file<C: Consumer, I: Inputs>(
    feed: Feed<C>,
    place: usize,
    name: &str,
    inputs: &mut I,
    lines: &mut Lines,
) -> Result<Feed<C>, FileFault>
    requires fits { C.fits feed.consumer (points_of feed) }
    requires begins { over_of feed.events ≡ false }
    ensures fits { IfOk result (λ next. C.fits next.consumer (points_of next)) }
    ensures gives { (h : History) (steps : List Step) → StandsBehind C.stands feed h steps → (xs : List ℕ) → I.file inputs.old name.now ≡ Holds xs
        → FileGives C.stands (ignores_of feed.events) place h steps lines.old xs result lines.new (I.rest inputs.new) }
    ensures given { IfOk result (λ next. C.given next.consumer ≡ C.given feed.consumer) }
    ensures counts { IfOk result (λ next. (over_of next.events ≡ false) × (ignores_of next.events ≡ ignores_of feed.events)) }
    // Only a file that could not be started may be absent, and of that one nothing was read.
    ensures there { result ≢ Err FileFault.Start → I.file inputs.old name.now ≢ Absent }
    ensures unstarted { result ≡ Err FileFault.Start → I.rest inputs.new ≡ I.rest inputs.old }
    ensures limits { lines.new.limits ≡ lines.old.limits }
    ensures files { I.file inputs.new ≡ I.file inputs.old }
    ensures later { I.faults inputs.old ≤ I.faults inputs.new }
    ensures start { result ≡ Err FileFault.Start → (I.file inputs.old name.now ≡ Absent) ⊎ Rose (I.faults inputs.old) (I.faults inputs.new) }
    ensures read { result ≡ Err FileFault.Read → Rose (I.faults inputs.old) (I.faults inputs.new) }
{
    match lines.start(inputs, name) {
        Err(Failed) => Err(FileFault::Start),
        Ok(()) => read_started(feed, place, inputs, lines),
    }
}

fn name_at(names: &[Word], place: usize) -> &str
    requires { place < length names.now }
    ensures { result.now ≡ file_name_at names.now place }
{
    names[place].as_str()
}

// Reads the files, of which none was read.
fn read_all<C: Consumer, I: Inputs>(
    traces: &Traces,
    feed: Feed<C>,
    inputs: &mut I,
    lines: &mut Lines,
) -> Result<Feed<C>, FilesFault>
    requires fits { C.fits feed.consumer (points_of feed) }
    requires begins { over_of feed.events ≡ false }
    requires limits { lines.old.limits.line ≡ line_limit }
    requires ignores { ignores_of feed.events ≡ traces.now.ignore_missing_entry }
    ensures fits { IfOk result (λ next. C.fits next.consumer (points_of next)) }
    ensures gives { (room : ℕ) → TracesAreReadTo C.stands traces.now room (I.file inputs.old) (I.rest inputs.old) (I.rest inputs.old) feed (room_of lines.old) 0
        → FilesGive C.stands traces.now room (I.file inputs.old) (I.rest inputs.old) result lines.new (I.rest inputs.new) }
    ensures given { IfOk result (λ next. C.given next.consumer ≡ C.given feed.consumer) }
    ensures placed { IfErr result (IsPlaced (length traces.now.names)) }
    ensures later { I.faults inputs.old ≤ I.faults inputs.new }
    ensures cause { IfErr result (HasCause traces.now (I.file inputs.old) (Rose (I.faults inputs.old) (I.faults inputs.new))) }
    ensures files { I.file inputs.new ≡ I.file inputs.old }
{
    let names = traces.names.as_slice();
    let mut feed = feed;
    for place in 0..names.len() {
        match read_file(feed, place, name_at(names, place), inputs, lines) {
            Ok(next) => feed = next,
            Err(fault) => return Err(fault.at(place)),
        }
    }
    Ok(feed)
}

/// Reads the files to their ends, one after another, and hands what their blocks do to the consumer, which was told nothing yet. What the
/// lines have read before counts in the limit of all bytes. The first faulty line ends it, and a file that can't be started, a failed read,
/// and running out of memory do.
pub fn read_files<C: Consumer, I: Inputs>(
    alloc: Global,
    traces: &Traces,
    consumer: C,
    inputs: &mut I,
    lines: &mut Lines,
) -> Result<Feed<C>, FilesFault>
    requires fits { C.fits consumer [] }
    requires stands { C.stands consumer nothing_told }
    requires limits { lines.old.limits.line ≡ line_limit }
    ensures fits { IfOk result (λ feed. C.fits feed.consumer (points_of feed)) }
    ensures given { IfOk result (λ feed. C.given feed.consumer ≡ C.given consumer) }
    // What each answer says of the files.
    ensures says { ReadingSays C.stands traces.now (room_of lines.old) (I.file inputs.old) (I.rest inputs.old) result (I.rest inputs.new) }
    ensures placed { IfErr result (IsPlaced (length traces.now.names)) }
    // Why a file was not read: it is absent, or a fault of the inputs rose.
    ensures later { I.faults inputs.old ≤ I.faults inputs.new }
    ensures cause { IfErr result (HasCause traces.now (I.file inputs.old) (Rose (I.faults inputs.old) (I.faults inputs.new))) }
    // Where no fault of the inputs rises, files that are held are read, or refused at their first fault.
    ensures complete { (Rose (I.faults inputs.old) (I.faults inputs.new) → ⊥) → IsComplete traces.now (room_of lines.old) (I.file inputs.old) result }
    ensures files { I.file inputs.new ≡ I.file inputs.old }
{
    let feed = Feed::new(alloc, traces.ignore_missing_entry, consumer)?;
    read_all(traces, feed, inputs, lines)
}
