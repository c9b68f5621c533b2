// Why the cases cannot be run.
use dk_base::NoMemory;
use std::alloc::AllocError;
use std::io;
use thiserror::Error;

/// Why the cases cannot be run.
#[derive(Debug, Drop, Error)]
pub enum CasesFault {
    #[error("out of memory")]
    NoMemory,
    #[error("{0}")]
    Outside(io::Error),
}

impl From<NoMemory> for CasesFault {
    fn from(_: NoMemory) -> CasesFault {
        CasesFault::NoMemory
    }
}

impl From<AllocError> for CasesFault {
    fn from(_: AllocError) -> CasesFault {
        CasesFault::NoMemory
    }
}

impl From<io::Error> for CasesFault {
    fn from(error: io::Error) -> CasesFault {
        CasesFault::Outside(error)
    }
}
