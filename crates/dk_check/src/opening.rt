// The assertion file, which is read in front of the others.
use crate::Command;
use crate::checking::Checking;
use dk_claims::read_claims;
use dk_driver::FileFault;
use dk_io::Inputs;
use dk_lines::Lines;
use dk_program::{Opens, fault_of_lines};
use std::alloc::Global;

impl Opens for Command {
    ghost use Rattle.dk_check.specs.Assertions.{claims_in};
    ghost use Rattle.dk_program.specs.Openings.{IsOfBytes};

    ghost first = { λ command. command.assertions };

    ghost given_in = { claims_in };

    ghost may_refuse = { IsOfBytes };

    fn first(&self) -> &str {
        self.assertions.as_str()
    }

    fn open<I: Inputs>(
        &self,
        alloc: Global,
        inputs: &mut I,
        lines: &mut Lines,
    ) -> Result<Checking, FileFault> {
        match read_claims(alloc, inputs, lines) {
            Ok(claims) => match Checking::new(alloc, claims) {
                Ok(checking) => Ok(checking),
                Err(_) => Err(FileFault::NoMemory),
            },
            Err(fault) => Err(fault_of_lines(fault)),
        }
    }
}
