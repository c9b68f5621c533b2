// What a run begins with: a new session, or that of a state file, which is read whole.
ghost use Rattle.std.specs.Prelude.{◌≡◌, ◌≤◌, List, ℕ, IfErr, IfOk, None, OnOk, length};
ghost use Rattle.dk_io.specs.Outside.{HeldFile, Rose};
ghost use Rattle.dk_core.specs.Selecting.{SelectsBy};
ghost use Rattle.dk_core.specs.Standing.{select_of};
ghost use Rattle.dk_run.specs.Beginning.{IsBegun, IsLeft, IsWhole, IsResumed, IsUnloaded, StartFaultGives, StateFaultGives, fault_of_load, fault_of_read, refused_whole};
ghost use Rattle.dk_run.specs.Commands.{is_selected};
ghost use Rattle.dk_run.specs.Courses.{total_limit};

use crate::choosing::options_of;
use dk_base::{NoMemory, Text, Why};
use dk_command_line::Command;
use dk_core::{LoadFault, Session};
use dk_driver::FileFault;
use dk_io::{AllFault, Failed, Inputs, read_all};
use dk_lines::Limits;
use std::alloc::Global;

/// A session in front of the first file, and how many bytes the files may have together.
#[derive(Drop)]
pub(crate) struct Beginning<F> {
    pub(crate) session: Session<F>,
    pub(crate) room: u64,
}

// The fault of a state file that is refused as a whole.
fn refused_whole(why: Why) -> FileFault
    ensures { result ≡ refused_whole why }
{
    FileFault::Refused { line: 0, why }
}

fn fault_of_read(fault: AllFault) -> FileFault
    ensures { result ≡ fault_of_read fault }
{
    match fault {
        AllFault::Read => FileFault::Read,
        AllFault::TooLong => refused_whole(Why::TooLong),
        AllFault::NoMemory => FileFault::NoMemory,
    }
}

fn fault_of_load(fault: LoadFault) -> FileFault
    ensures { result ≡ fault_of_load fault }
{
    match fault {
        LoadFault::BadState => refused_whole(Why::BadState),
        LoadFault::NoMemory => FileFault::NoMemory,
    }
}

// Reads a state file whole.
fn read_state<I: Inputs>(alloc: Global, name: &str, inputs: &mut I) -> Result<Text, FileFault>
    ensures whole { IfOk result (λ text. IsWhole (I.file inputs.old name.now) text (I.rest inputs.new)) }
    ensures fault { IfErr result (StateFaultGives (I.file inputs.old name.now) (Rose (I.faults inputs.old) (I.faults inputs.new)) (I.rest inputs.old) (I.rest inputs.new)) }
    ensures files { I.file inputs.new ≡ I.file inputs.old }
    ensures later { I.faults inputs.old ≤ I.faults inputs.new }
{
    match inputs.start(name) {
        Err(Failed) => Err(FileFault::Start),
        Ok(()) => match read_all(alloc, inputs, Limits::STANDARD.total) {
            Ok(text) => Ok(text),
            Err(fault) => Err(fault_of_read(fault)),
        },
    }
}

// Begins a session without samples.
fn begin_new<F: Fn(&[u8]) -> bool + Drop>(
    alloc: Global,
    command: &Command,
    select: F,
) -> Result<Beginning<F>, FileFault>
    requires { command.now.resume ≡ None }
    ensures begun { IfOk result (λ b. (file : List ℕ → HeldFile) → IsBegun command.now file b) }
    ensures select { IfOk result (λ b. select_of b.session ≡ select) }
    ensures fault { IfErr result (λ f. f ≡ FileFault.NoMemory) }
{
    match Session::new(alloc, select, options_of(command)) {
        Ok(session) => Ok(Beginning {
            session,
            room: Limits::STANDARD.total,
        }),
        Err(NoMemory) => Err(FileFault::NoMemory),
    }
}

// With what a state file says.
fn begin_resumed<F: Fn(&[u8]) -> bool + Drop>(
    alloc: Global,
    command: &Command,
    select: F,
    state: &[u8],
) -> Result<Beginning<F>, FileFault>
    requires { length state.now ≤ total_limit }
    ensures begun { IfOk result (λ b. IsResumed command.now state.now b) }
    ensures select { IfOk result (λ b. select_of b.session ≡ select) }
    ensures fault { IfErr result (λ f. IsUnloaded state.now f) }
{
    match Session::resume(alloc, select, options_of(command), state) {
        Ok(session) => Ok(Beginning {
            session,
            room: Limits::STANDARD.total - state.len() as u64,
        }),
        Err(fault) => Err(fault_of_load(fault)),
    }
}

/// What the run begins with. Its session reports the points that the selection answers `true` to.
pub(crate) fn begin<F: Fn(&[u8]) -> bool + Drop, I: Inputs>(
    alloc: Global,
    command: &Command,
    select: F,
    inputs: &mut I,
) -> Result<Beginning<F>, FileFault>
    requires callable { F.IsAlwaysCallable select }
    requires selects { SelectsBy (F.post select) (is_selected command.now) }
    ensures begun { IfOk result (λ b. IsBegun command.now (I.file inputs.old) b) }
    ensures left { OnOk result (IsLeft command.now.resume (I.file inputs.old) (I.rest inputs.old) (I.rest inputs.new)) }
    ensures callable { IfOk result (λ b. F.IsAlwaysCallable (select_of b.session)) }
    ensures selects { IfOk result (λ b. SelectsBy (F.post (select_of b.session)) (is_selected command.now)) }
    ensures fault { IfErr result (StartFaultGives command.now.resume (I.file inputs.old) (Rose (I.faults inputs.old) (I.faults inputs.new)) (I.rest inputs.old) (I.rest inputs.new)) }
    ensures files { I.file inputs.new ≡ I.file inputs.old }
    ensures later { I.faults inputs.old ≤ I.faults inputs.new }
{
    match &command.resume {
        None => begin_new(alloc, command, select),
        Some(name) => {
            let state = read_state(alloc, name.as_str(), inputs)?;
            begin_resumed(alloc, command, select, state.as_slice())
        }
    }
}
