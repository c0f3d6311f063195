//! Blobs as files of a folder.

use crate::blob_paths::BlobFile;
use lib_base::Bytes;
use std::alloc::Global;
use std::fs::{self, OpenFile};
use std::io::{self, ErrorKind, Read, Write};
use std::path::Path;
use std::rt::Files;

/// Makes the folder where it is missing, and syncs its parent, so that the folder outlives a crash.
pub(crate) fn make_folder<R: Files>(files: &R, folder: &str) -> io::Result<()> {
    match fs::create_dir(files, folder) {
        Err(reason) if reason.kind() != ErrorKind::AlreadyExists => return Err(reason),
        _ => {}
    }
    match Path::new(folder).parent() {
        None => Ok(()),
        Some(parent) if parent.as_str().is_empty() => sync_folder(files, "."),
        Some(parent) => sync_folder(files, parent.as_str()),
    }
}

/// Puts the bytes into the file. It is whole, and on the disk under its name, where this is Ok: the
/// rows that name it are committed next.
pub(crate) fn put_file<R: Files>(files: &R, file: BlobFile<'_>, bytes: &[u8]) -> io::Result<()> {
    let part = file.part_path()?;
    let path = file.path()?;
    if let Err(reason) = move_in(files, part.as_str(), path.as_str(), bytes) {
        let _ = fs::remove_file(files, part.as_str());
        return Err(reason);
    }
    sync_folder(files, file.folder)
}

/// Writes the part, syncs it, and gives it its name.
fn move_in<R: Files>(files: &R, part: &str, path: &str, bytes: &[u8]) -> io::Result<()> {
    let mut file = fs::create(files, part)?;
    file.write_all(bytes)?;
    file.sync_all()?;
    fs::rename(files, part, path)
}

/// Syncs the names in a folder.
fn sync_folder<R: Files>(files: &R, folder: &str) -> io::Result<()> {
    fs::open(files, folder)?.sync_all()
}

/// What the file holds, None exactly where it is missing. What is no regular file is refused.
pub(crate) fn get_file<R: Files>(
    alloc: Global,
    files: &R,
    file: BlobFile<'_>,
) -> io::Result<Option<Bytes>> {
    let path = file.path()?;
    let about = match fs::symlink_metadata(files, path.as_str()) {
        Ok(about) => about,
        Err(reason) if reason.kind() == ErrorKind::NotFound => return Ok(None),
        Err(reason) => return Err(reason),
    };
    if !about.is_file() {
        return Err(io::Error::new(ErrorKind::InvalidData, "no regular file"));
    }
    let mut bytes = vec![in alloc; 0; about.len() as usize]?;
    fs::open(files, path.as_str())?.read_exact(&mut bytes)?;
    Ok(Some(Bytes::of(bytes)))
}

/// Removes the file. One that is missing is removed. The folder is not synced: a file that comes
/// back is named by no row.
pub(crate) fn remove<R: Files>(files: &R, file: BlobFile<'_>) -> io::Result<()> {
    let path = file.path()?;
    match fs::remove_file(files, path.as_str()) {
        Err(reason) if reason.kind() != ErrorKind::NotFound => Err(reason),
        _ => Ok(()),
    }
}
