// The report, which is read in front of the other files.
use crate::{Command, Reported};
use dk_claims::read_sections;
use dk_driver::FileFault;
use dk_io::Inputs;
use dk_lines::Lines;
use dk_program::{Opens, fault_of_lines};
use std::alloc::Global;

impl Opens for Command {
    ghost use Rattle.dk_program.specs.Openings.{IsOfBytes};
    ghost use Rattle.dk_tell.specs.Reports.{sections_in};

    ghost first = { λ command. command.report };

    ghost given_in = { sections_in };

    ghost may_refuse = { IsOfBytes };

    fn first(&self) -> &str {
        self.report.as_str()
    }

    fn open<I: Inputs>(
        &self,
        alloc: Global,
        inputs: &mut I,
        lines: &mut Lines,
    ) -> Result<Reported, FileFault> {
        match read_sections(alloc, inputs, lines) {
            Ok(sections) => Ok(Reported { sections }),
            Err(fault) => Err(fault_of_lines(fault)),
        }
    }
}
