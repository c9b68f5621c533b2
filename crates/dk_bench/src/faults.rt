// Why the benchmark ends early.
use dk_base::{BlockFault, NoMemory};
use std::alloc::AllocError;
use std::io;
use thiserror::Error;

/// Why the benchmark ends early.
#[derive(Debug, Drop, Error)]
pub enum Fault {
    #[error("out of memory")]
    NoMemory,
    #[error("a declaration is refused")]
    Refused,
    #[error("{0}")]
    Outside(io::Error),
}

impl From<NoMemory> for Fault {
    fn from(_: NoMemory) -> Fault {
        Fault::NoMemory
    }
}

impl From<AllocError> for Fault {
    fn from(_: AllocError) -> Fault {
        Fault::NoMemory
    }
}

impl From<BlockFault> for Fault {
    fn from(fault: BlockFault) -> Fault {
        match fault {
            BlockFault::NoMemory => Fault::NoMemory,
            BlockFault::Refused { .. } => Fault::Refused,
        }
    }
}

impl From<io::Error> for Fault {
    fn from(error: io::Error) -> Fault {
        Fault::Outside(error)
    }
}
