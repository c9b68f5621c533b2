// First files of lines.
ghost use Rattle.std.specs.Prelude.{◌≡◌};
ghost use Rattle.dk_program.specs.Openings.{fault_of_lines};

use dk_base::Why;
use dk_driver::FileFault;
use dk_lines::LineFault;

/// The fault of a file, by that of its lines.
pub fn fault_of_lines(fault: LineFault) -> FileFault
    ensures { result ≡ fault_of_lines fault }
{
    match fault {
        LineFault::LongLine { line } => FileFault::Refused {
            line,
            why: Why::LongLine,
        },
        LineFault::TooLong { line } => FileFault::Refused {
            line,
            why: Why::TooLong,
        },
        LineFault::Read => FileFault::Read,
        LineFault::NoMemory => FileFault::NoMemory,
    }
}
