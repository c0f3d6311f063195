//! Runs the real objects over files of its own folder, case by case, and prints what comes of each.
//!
//! It stands on no path of the product and promises nothing: its stored output is the expectation,
//! worked out from what the calls promise. The objects say each fault on standard error too.
#![tactic(auto)]

mod batches;
mod blobs;
mod failing_files;
mod keepers;
mod peers;
mod spoiled;

use lib_base::Text;
use std::alloc::Global;
use std::{fs, io};

fn main(rt: HostRuntime) -> io::Result<()> {
    keepers::run(&rt)?;
    spoiled::run(&rt)?;
    blobs::run(&rt)?;
    peers::run(&rt, &rt)
}

/// A text of these letters.
fn text(alloc: Global, letters: &str) -> io::Result<Text> {
    Ok(Text::of(String::from_str(alloc, letters)?))
}

/// Removes a database and its log.
fn remove_database(rt: &HostRuntime, path: &str) -> io::Result<()> {
    let _ = fs::remove_file(rt, path);
    let _ = fs::remove_file(rt, format!(in rt.alloc(); "{path}-wal")?.as_str());
    Ok(())
}
