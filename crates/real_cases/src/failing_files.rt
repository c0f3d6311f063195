//! A system of files of which one call fails.
use std::alloc::Allocator;
use std::cell::Cell;
use std::fmt::Display;
use std::fs::{self, File, Metadata, OpenFile, OpenOptions};
use std::io::{self, ErrorKind, Read, Seek, SeekFrom, Write};
use std::rt::Files;

/// Counts calls of files, and the lines on standard error.
#[derive(Drop)]
pub struct Calls {
    count: Cell<u32>,
    lines: Cell<u32>,
    /// The number of the call that fails, from 1.
    failing: u32,
    /// What that call was to do.
    failed: Cell<&'static str>,
}

impl Calls {
    pub fn new(failing: u32) -> Calls {
        Calls {
            count: Cell::new(0),
            lines: Cell::new(0),
            failing,
            failed: Cell::new("nothing"),
        }
    }

    /// How many lines went to standard error.
    pub fn lines(&self) -> u32 {
        self.lines.get()
    }

    /// What the call that failed was to do.
    pub fn failed(&self) -> &'static str {
        self.failed.get()
    }

    /// Counts a call, and fails where its number is due.
    fn call(&self, what: &'static str) -> io::Result<()> {
        self.count.set(self.count.get().saturating_add(1));
        if self.count.get() == self.failing {
            self.failed.set(what);
            return Err(ErrorKind::StorageFull.into());
        }
        Ok(())
    }
}

/// The files of the system, where the call that is due fails.
#[derive(Drop)]
pub struct FailingFiles<'r> {
    rt: &'r HostRuntime,
    calls: &'r Calls,
}

impl<'r> FailingFiles<'r> {
    pub fn new(rt: &'r HostRuntime, calls: &'r Calls) -> FailingFiles<'r> {
        FailingFiles { rt, calls }
    }
}

/// An open file of that system.
#[derive(Drop)]
pub struct FailingFile<'r> {
    file: File,
    calls: &'r Calls,
}

impl Read for FailingFile<'_> {
    fn read(&mut self, into: &mut [u8]) -> io::Result<usize> {
        self.file.read(into)
    }
}

impl Write for FailingFile<'_> {
    fn write(&mut self, piece: &[u8]) -> io::Result<usize> {
        self.calls.call("write")?;
        self.file.write(piece)
    }

    fn flush(&mut self) -> io::Result<()> {
        Ok(())
    }
}

impl Seek for FailingFile<'_> {
    fn seek(&mut self, to: SeekFrom) -> io::Result<u64> {
        self.file.seek(to)
    }
}

impl OpenFile for FailingFile<'_> {
    fn metadata(&self) -> io::Result<Metadata> {
        self.file.metadata()
    }

    fn set_len(&self, size: u64) -> io::Result<()> {
        self.file.set_len(size)
    }

    fn sync_all(&self) -> io::Result<()> {
        self.calls.call("sync")?;
        self.file.sync_all()
    }

    fn sync_data(&self) -> io::Result<()> {
        self.file.sync_data()
    }
}

impl<'r> Files for FailingFiles<'r> {
    type File = FailingFile<'r>;

    type Dir = &'static [u8];

    fn open_file(&self, how: &OpenOptions, path: &str) -> io::Result<FailingFile<'r>> {
        self.calls.call("open")?;
        Ok(FailingFile {
            file: how.open(self.rt, path)?,
            calls: self.calls,
        })
    }

    fn open_dir(&self, _: &str) -> io::Result<&'static [u8]> {
        Err(ErrorKind::Unsupported.into())
    }

    fn metadata(&self, path: &str) -> io::Result<Metadata> {
        fs::metadata(self.rt, path)
    }

    fn symlink_metadata(&self, path: &str) -> io::Result<Metadata> {
        fs::symlink_metadata(self.rt, path)
    }

    fn copy(&self, from: &str, to: &str) -> io::Result<u64> {
        fs::copy(self.rt, from, to)
    }

    fn rename(&self, from: &str, to: &str) -> io::Result<()> {
        self.calls.call("rename")?;
        fs::rename(self.rt, from, to)
    }

    fn remove_file(&self, path: &str) -> io::Result<()> {
        fs::remove_file(self.rt, path)
    }

    fn create_dir(&self, path: &str) -> io::Result<()> {
        self.calls.call("make the folder")?;
        fs::create_dir(self.rt, path)
    }

    fn remove_dir(&self, path: &str) -> io::Result<()> {
        fs::remove_dir(self.rt, path)
    }

    fn remove_dir_all<B: Allocator>(&self, alloc: B, path: &str) -> io::Result<()> {
        self.rt.remove_dir_all(alloc, path)
    }
}

impl Eprint for FailingFiles<'_> {
    fn eprint<D: Display + Drop>(&self, _: D) -> io::Result<()> {
        Ok(())
    }

    fn eprintln<D: Display + Drop>(&self, value: D) -> io::Result<()> {
        self.calls
            .lines
            .set(self.calls.lines.get().saturating_add(1));
        self.rt.eprintln(value)
    }
}
