//! A folder as a vault.
ghost use Rattle.std.specs.Prelude.{◌≡◌, ◌≤◌, None};
ghost use Rattle.lib_base.specs.Faults.{Rose};
ghost use Rattle.lib_base.specs.declared.outcomes.Outside.TheVariants as outside;

use crate::blob_files::{get_file, make_folder, put_file, remove};
use crate::blob_paths::BlobFile;
use keeper_store::Vault;
use lib_base::{Bytes, Failed, Outside, Text};
use real_streams::Faults;
use std::alloc::Global;
use std::io::{self, ErrorKind};
use std::rt::Files;

/// A folder as a vault, which holds the blob of the key 7 in its file `7.bin`.
#[derive(Drop)]
pub struct FolderVault<'r, R: Files + Eprint> {
    rt: &'r R,
    alloc: Global,
    folder: Text,
    /// Whether this object has made the folder, or found it, and synced its parent.
    is_made: bool,
    faults: Faults,
    calls: u64,
    changes: u64,
}

impl<'r, R: Files + Eprint> FolderVault<'r, R> {
    /// A vault in the folder at this path, with no call and no fault yet. The first `put` makes the
    /// folder where it is missing.
    pub fn at(rt: &'r R, alloc: Global, path: Text) -> FolderVault<'r, R>
        ensures { ⟦<FolderVault<'r, R> as Vault>⟧.shown result
            ≡ record { blobs = None; faults = 0; calls = 0; changes = 0 } }
    {
        FolderVault {
            rt,
            alloc,
            folder: path,
            is_made: false,
            faults: Faults::none(),
            calls: 0,
            changes: 0,
        }
    }

    pub fn faults(&self) -> u64
        ensures { result ≡ (⟦<FolderVault<'r, R> as Vault>⟧.shown self.now).faults }
    {
        self.faults.count()
    }

    /// Counts a reason that is no want of memory, and says it.
    fn refuse(&mut self, key: u32, reason: io::Error) -> Outside
        ensures counts { self.new ≡ record self.old { faults = self.new.faults } }
        ensures failed { result ≡ outside.Failed → Rose self.old.faults self.new.faults }
        ensures memory { result ≡ outside.Memory → self.new.faults ≡ self.old.faults }
        ensures later { self.old.faults ≤ self.new.faults }
    {
        if reason.kind() == ErrorKind::OutOfMemory {
            return Outside::Memory;
        }
        let folder = self.folder.as_str();
        self.faults.add(self.rt, BlobFile { folder, key }, reason);
        Outside::Failed
    }
}

/// Puts the bytes into the file, and makes the folder first where this has not happened yet.
fn put_in_folder<R: Files>(
    files: &R,
    is_made: &mut bool,
    file: BlobFile<'_>,
    bytes: &[u8],
) -> io::Result<()> {
    if !*is_made {
        make_folder(files, file.folder)?;
        *is_made = true;
    }
    put_file(files, file, bytes)
}

impl<'r, R: Files + Eprint> Vault for FolderVault<'r, R> {
    ghost shown = { λ v. record {
      blobs = None;
      faults = v.faults;
      calls = v.calls;
      changes = v.changes;
    } };

    fn put(&mut self, key: u32, bytes: &[u8]) -> Result<(), Outside> {
        self.calls = self.calls.saturating_add(1);
        self.changes = self.changes.saturating_add(1);
        let folder = self.folder.as_str();
        match put_in_folder(self.rt, &mut self.is_made, BlobFile { folder, key }, bytes) {
            Ok(()) => Ok(()),
            Err(reason) => Err(self.refuse(key, reason)),
        }
    }

    fn get(&mut self, key: u32) -> Result<Option<Bytes>, Outside> {
        self.calls = self.calls.saturating_add(1);
        let folder = self.folder.as_str();
        match get_file(self.alloc, self.rt, BlobFile { folder, key }) {
            Ok(held) => Ok(held),
            Err(reason) => Err(self.refuse(key, reason)),
        }
    }

    /// It takes no memory.
    fn drop_blob(&mut self, key: u32) -> Result<(), Failed> {
        self.calls = self.calls.saturating_add(1);
        self.changes = self.changes.saturating_add(1);
        let file = BlobFile {
            folder: self.folder.as_str(),
            key,
        };
        match remove(self.rt, file) {
            Ok(()) => Ok(()),
            Err(reason) => {
                self.faults.add(self.rt, file, reason);
                Err(Failed)
            }
        }
    }
}
