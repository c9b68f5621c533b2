// A file that is written beside its place, and put there once it is whole.
use std::fs::{Metadata, OpenFile, OpenOptions};
use std::io::{ErrorKind, Write};
use std::os::unix::fs::{MetadataExt, OpenOptionsExt, chown};
use std::path::{Path, PathBuf};
use std::rt::Files;
use std::{fs, io};

/// How many symbolic links lead to a file at most, as for the system.
const MOST_LINKS: u32 = 40;

/// Where a file is written, and its place.
#[derive(Drop)]
struct Paths<R: Alloc> {
    beside: PathBuf<R::A>,
    place: PathBuf<R::A>,
}

/// The new bytes of a file, written beside it, so that it keeps its own until these are whole. What isn't a regular file, as a device or a
/// pipe, keeps no bytes, and is written to in its place.
#[derive(Drop)]
pub struct Replacement<R: Files + Alloc> {
    file: R::File,
    names: Option<Paths<R>>,
}

impl<R: Files + Alloc> Replacement<R> {
    /// Begins with no bytes. Symbolic links are followed. A file that may not be written to isn't replaced.
    pub fn begin(rt: &R, name: &str) -> io::Result<Replacement<R>> {
        match fs::metadata(rt, name) {
            Ok(old) if old.is_file() => {
                OpenOptions::new().write(true).open(rt, name)?;
                Replacement::begin_beside(rt, name, Some(old))
            }
            Ok(_) => Ok(Replacement {
                file: fs::create(rt, name)?,
                names: None,
            }),
            Err(error) if error.kind() == ErrorKind::NotFound => {
                Replacement::begin_beside(rt, name, None)
            }
            Err(error) => Err(error),
        }
    }

    // Begins beside the place, with the permissions of the old file. What a killed run has left there is taken away.
    fn begin_beside(rt: &R, name: &str, old: Option<Metadata>) -> io::Result<Replacement<R>> {
        let place = behind_links(rt, name)?;
        let beside = place.as_path().with_added_extension(rt.alloc(), "new")?;
        remove_leftover(rt, beside.as_path())?;
        let replacement = Replacement {
            file: create_like(rt, beside.as_path(), &old)?,
            names: Some(Paths { beside, place }),
        };
        match replacement.keep_permissions(rt, &old) {
            Ok(()) => Ok(replacement),
            Err(error) => {
                replacement.discard(rt);
                Err(error)
            }
        }
    }

    // Gives the new file the owner, the group and the permissions of the old one. Who may not give files away stays the owner.
    fn keep_permissions(&self, rt: &R, old: &Option<Metadata>) -> io::Result<()> {
        let (Some(old), Some(names)) = (old, &self.names) else {
            return Ok(());
        };
        let _ = chown(rt, names.beside.as_path(), None, Some(old.gid()));
        let _ = chown(rt, names.beside.as_path(), Some(old.uid()), None);
        self.file.set_permissions(old.permissions())
    }

    /// Puts the new bytes in the place of the old ones, once they are on the disk.
    pub fn put(&self, rt: &R) -> io::Result<()> {
        let Some(names) = &self.names else {
            return Ok(());
        };
        self.file.sync_all()?;
        if !self.is_at(rt, names.beside.as_path()) {
            let message = "another run is writing it";
            return Err(io::Error::new(ErrorKind::ResourceBusy, message));
        }
        fs::rename(rt, names.beside.as_path(), names.place.as_path())?;
        sync_folder(rt, names.place.as_path());
        Ok(())
    }

    /// Takes the new bytes away. The old ones stay.
    pub fn discard(&self, rt: &R) {
        let Some(names) = &self.names else {
            return;
        };
        if self.is_at(rt, names.beside.as_path()) {
            let _ = fs::remove_file(rt, names.beside.as_path());
        }
    }

    // Whether the name is this file's, and not that of another run.
    fn is_at(&self, rt: &R, name: Path<'_>) -> bool {
        match (self.file.metadata(), fs::symlink_metadata(rt, name)) {
            (Ok(own), Ok(found)) => own.dev() == found.dev() && own.ino() == found.ino(),
            _ => false,
        }
    }
}

impl<R: Files + Alloc> Write for Replacement<R> {
    fn write(&mut self, bytes: &[u8]) -> io::Result<usize> {
        self.file.write(bytes)
    }

    fn flush(&mut self) -> io::Result<()> {
        self.file.flush()
    }
}

// The file that a name leads to by symbolic links, whether or not it is there.
fn behind_links<R: Files + Alloc>(rt: &R, name: &str) -> io::Result<PathBuf<R::A>> {
    let mut place = PathBuf::from_str(rt.alloc(), name)?;
    for _ in 0..=MOST_LINKS {
        match fs::read_link(rt, place.as_path()) {
            Ok(target) => {
                place.pop();
                place.push(target.as_path())?;
            }
            Err(error) if is_no_link(error.kind()) => return Ok(place),
            Err(error) => return Err(error),
        }
    }
    Err(io::Error::from(ErrorKind::FilesystemLoop))
}

fn is_no_link(kind: ErrorKind) -> bool {
    kind == ErrorKind::InvalidInput || kind == ErrorKind::NotFound
}

fn remove_leftover(rt: &impl Files, name: Path<'_>) -> io::Result<()> {
    match fs::remove_file(rt, name) {
        Err(error) if error.kind() != ErrorKind::NotFound => Err(error),
        _ => Ok(()),
    }
}

// A new file, which its owner alone may read until it has the group and the permissions of the old one.
fn create_like<R: Files>(rt: &R, name: Path<'_>, old: &Option<Metadata>) -> io::Result<R::File> {
    let mut options = OpenOptions::new();
    options.write(true).create_new(true);
    if let Some(old) = old {
        options.mode(old.mode() & 0o700);
    }
    options.open(rt, name)
}

// Has the folder's names put on the disk, where the system does that. Before and after, the file is whole.
fn sync_folder(rt: &impl Files, place: Path<'_>) {
    let folder = match place.parent() {
        Some(folder) if !folder.as_str().is_empty() => folder.as_str(),
        _ => ".",
    };
    if let Ok(folder) = fs::open(rt, folder) {
        let _ = folder.sync_all();
    }
}
