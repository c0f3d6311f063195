//! The program: the command that its words give, over standard input and output, a port of this
//! machine, and a database and a folder of files in the current folder.
//!
//! `report_cli::run` is the whole of it. What stands here are the words of the command line, and
//! where the objects of a run are. Words that are no command make no file.
#![tactic(auto)]

use keeper_real::{FolderVault, SqliteKeeper};
use lib_base::{Memory, Text};
use real_streams::{StdSink, StdSource, TcpDoor};
use report_cli::{Status, run};
use std::alloc::Global;
use std::env::Env;
use std::process::ExitCode;
use std::{env, io};

/// The database, beside the folder of the files that were taken in.
const DATABASE: &str = "library.db";

const TAKES: &str = "takes";

/// The port of 127.0.0.1 at which connections come in.
const PORT: u16 = 8330;

/// The words of the command line, and where the library is.
#[derive(Drop)]
struct Start {
    words: Vec<String>,
    database: Text,
    takes: Text,
    folder: Text,
}

/// The words of the command line, after the program's name. Where one can't be read there are none.
fn words<R: Env + AllocGlobal>(rt: &R, alloc: Global) -> Result<Vec<String>, Memory> {
    match env::args(rt) {
        Ok(words) => {
            let words = words.skip(1).collect(alloc)?;
            Ok(words)
        }
        Err(fault) if fault.kind() == io::ErrorKind::OutOfMemory => Err(Memory),
        Err(_) => Ok(Vec::new(alloc)),
    }
}

/// A path of these letters.
fn path(alloc: Global, letters: &str) -> Result<Text, Memory> {
    Ok(Text::of(String::from_str(alloc, letters)?))
}

/// What a run begins with.
fn prepare<R: Env + AllocGlobal>(rt: &R, alloc: Global) -> Result<Start, Memory> {
    Ok(Start {
        words: words(rt, alloc)?,
        database: path(alloc, DATABASE)?,
        takes: path(alloc, TAKES)?,
        folder: path(alloc, TAKES)?,
    })
}

fn main(rt: HostRuntime) -> ExitCode {
    let alloc = rt.alloc();
    let Ok(start) = prepare(&rt, alloc) else {
        return ExitCode::from(Status::Memory.code());
    };
    let mut keeper = SqliteKeeper::at(&rt, alloc, start.database).beside(start.takes);
    let mut vault = FolderVault::at(&rt, alloc, start.folder);
    let status = run(
        &rt,
        alloc,
        start.words.as_slice(),
        &mut StdSource::new(&rt),
        &mut StdSink::new(&rt),
        &mut keeper,
        &mut vault,
        &mut TcpDoor::at(&rt, PORT),
    );
    // A log that isn't copied is taken in by the next opening, and the keeper says why.
    let _ = keeper.close();
    ExitCode::from(status)
}
