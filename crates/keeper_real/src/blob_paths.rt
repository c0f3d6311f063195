//! The paths of blobs.
ghost use Rattle.std.specs.Prelude.{◌≡◌, Some, IfOk};
ghost use Rattle.keeper_real.specs.Paths.{blob_path, part_path};

use arrayvec::ArrayString;
use std::fmt::{self, Write};
use std::io::{self, ErrorKind};

/// As long as the system takes a path.
pub(crate) const LONGEST_PATH: usize = 4096;

/// A path, which takes no memory.
pub(crate) type BlobPath = ArrayString<LONGEST_PATH>;

/// The file of a key, `7.bin` for the key 7. It prints as its path.
#[derive(Clone, Copy)]
pub(crate) struct BlobFile<'a> {
    pub(crate) folder: &'a str,
    pub(crate) key: u32,
}

impl fmt::Display for BlobFile<'_> {
    ghost output = { λ file. Some (blob_path file.folder.now file.key) };

    fn fmt<W: fmt::Write>(&self, f: &mut fmt::Formatter<W>) -> fmt::Result {
        write!(f, "{}/{}.bin", self.folder, self.key)
    }
}

impl BlobFile<'_> {
    pub(crate) fn path(&self) -> io::Result<BlobPath>
        ensures { IfOk result (λ path. path.bytes ≡ blob_path self.now.folder.now self.now.key) }
    {
        let mut path = BlobPath::new();
        match write!(path, "{self}") {
            Ok(()) => Ok(path),
            Err(fmt::Error) => Err(ErrorKind::InvalidFilename.into()),
        }
    }

    /// The path of the file that becomes this one once it is whole.
    pub(crate) fn part_path(&self) -> io::Result<BlobPath>
        ensures { IfOk result (λ path. path.bytes ≡ part_path self.now.folder.now self.now.key) }
    {
        let part = PartFile {
            folder: self.folder,
            key: self.key,
        };
        let mut path = BlobPath::new();
        match write!(path, "{part}") {
            Ok(()) => Ok(path),
            Err(fmt::Error) => Err(ErrorKind::InvalidFilename.into()),
        }
    }
}

/// The file that becomes a key's once it is whole, `7.part` for the key 7. It prints as its path.
#[derive(Clone, Copy)]
struct PartFile<'a> {
    folder: &'a str,
    key: u32,
}

impl fmt::Display for PartFile<'_> {
    ghost output = { λ file. Some (part_path file.folder.now file.key) };

    fn fmt<W: fmt::Write>(&self, f: &mut fmt::Formatter<W>) -> fmt::Result {
        write!(f, "{}/{}.part", self.folder, self.key)
    }
}
