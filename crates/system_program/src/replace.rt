//! A file is replaced whole: its bytes are written to a part beside it, synced, and take its name. Where that fails the file is as it was,
//! and nothing new stands beside it.
use part_files::{PartFault, SystemNames, discard, new_part, part_name, publish_over};
use std::fs::{self, File, Metadata, OpenFile, OpenOptions};
use std::io::{self, Error, ErrorKind, Write};
use std::path::PathBuf;
use std::rt::Files;

// What the name of a part says of who made it.
const PROGRAM: &str = "nandctl";

// What stands at a path, where links lead.
enum Place {
    // Nothing.
    Free,
    // A regular file: its own path, where links lead to it, and what the system tells of it.
    Regular(Option<PathBuf>, Metadata),
    // A device, a pipe, or a link that leads to nothing.
    Other,
}

// The path that links lead to; none where a path is no link.
fn led_to<R: Files + AllocGlobal>(rt: &R, path: &str) -> io::Result<Option<PathBuf>> {
    if fs::symlink_metadata(rt, path)?.is_symlink() {
        Ok(Some(fs::canonicalize(rt, path)?))
    } else {
        Ok(None)
    }
}

// Whether nothing stands at a path, and no link either.
fn is_free<R: Files>(rt: &R, path: &str) -> io::Result<bool> {
    match fs::symlink_metadata(rt, path) {
        Ok(_) => Ok(false),
        Err(error) if error.kind() == ErrorKind::NotFound => Ok(true),
        Err(error) => Err(error),
    }
}

fn place_of<R: Files + AllocGlobal>(rt: &R, path: &str) -> io::Result<Place> {
    match fs::metadata(rt, path) {
        Ok(found) if found.is_file() => Ok(Place::Regular(led_to(rt, path)?, found)),
        Ok(_) => Ok(Place::Other),
        Err(error) if error.kind() == ErrorKind::NotFound => {
            if is_free(rt, path)? {
                Ok(Place::Free)
            } else {
                Ok(Place::Other)
            }
        }
        Err(error) => Err(error),
    }
}

// What a part that was not made or named comes to.
fn error_of(fault: PartFault) -> Error {
    match fault {
        PartFault::OutOfMemory => Error::from(ErrorKind::OutOfMemory),
        PartFault::Exists => Error::from(ErrorKind::AlreadyExists),
        PartFault::InUse | PartFault::Failed => Error::from(ErrorKind::Other),
    }
}

// Writes all bytes to a new file, for whom it was meant before, and waits until the system keeps them.
fn fill<F: Write + OpenFile>(
    file: &mut F,
    bytes: &[u8],
    before: Option<&Metadata>,
) -> io::Result<()> {
    if let Some(found) = before {
        file.set_permissions(found.permissions())?;
    }
    file.write_all(bytes)?;
    file.sync_all()
}

// Writes a part, and gives it its name.
fn fill_part<R: Files<File = File>>(
    names: &mut SystemNames<'_, R>,
    name: &str,
    path: &str,
    bytes: &[u8],
    before: Option<&Metadata>,
) -> io::Result<()> {
    // locked as long as it is open
    let mut file = new_part(names, name).map_err(error_of)?;
    let done = match fill(&mut file, bytes, before) {
        Ok(()) => publish_over(names, name, path).map_err(error_of),
        Err(error) => Err(error),
    };
    if done.is_err() {
        discard(names, name);
    }
    done
}

// Puts a file of these bytes at a path, whole or not at all.
fn put_whole<R: Files<File = File> + AllocGlobal>(
    rt: &R,
    path: &str,
    bytes: &[u8],
    before: Option<&Metadata>,
) -> io::Result<()> {
    let name = part_name(rt.alloc(), path, PROGRAM)?;
    fill_part(
        &mut SystemNames::new(rt),
        name.as_str(),
        path,
        bytes,
        before,
    )
}

/// Stores these bytes at a path. A regular file there is replaced, where links lead to it, and keeps its permissions: it is opened
/// for writing first, so that one which may not be written is refused. What is there and no regular file is written as it is.
///
/// # Errors
///
/// That of the system's call that failed, or of a growth that was refused. A regular file is then as it was. (This project's.)
pub(crate) fn replace<R: Files<File = File> + AllocGlobal>(
    rt: &R,
    path: &str,
    bytes: &[u8],
) -> io::Result<()> {
    match place_of(rt, path)? {
        Place::Free => put_whole(rt, path, bytes, None),
        Place::Regular(real, found) => {
            let path = match &real {
                Some(real) => real.as_str(),
                None => path,
            };
            OpenOptions::new().write(true).open(rt, path)?;
            put_whole(rt, path, bytes, Some(&found))
        }
        Place::Other => fs::write(rt, path, bytes),
    }
}
