// Chunks of files, which are held.
ghost use Rattle.std.specs.Prelude.{◌≡◌, ◌<◌, ◌+◌, ◌^◌, IfOk, length};

use crate::file_bytes::FileBytes;
use dk_base::NoMemory;

/// Whole rows of the file at a place, in front of which so many rows of it stand.
#[derive(Drop)]
pub(crate) struct Chunk {
    pub(crate) file: usize,
    pub(crate) front: u64,
    pub(crate) bytes: FileBytes,
    ghost numbered: { front + length bytes < 2 ^ 64 },
}

impl Chunk {
    /// These bytes, in front of which so many rows stand. That the number of a row passes 64 bits is answered as want of memory.
    pub(crate) fn new(file: usize, front: u64, bytes: FileBytes) -> Result<Chunk, NoMemory>
        ensures { IfOk result (λ chunk. (chunk.file ≡ file) × (chunk.front ≡ front) × (chunk.bytes ≡ bytes)) }
    {
        let size = bytes.as_slice().len() as u64;
        if size > u64::MAX - front {
            return Err(NoMemory);
        }
        Ok(Chunk { file, front, bytes })
    }
}
