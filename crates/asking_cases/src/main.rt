//! Asks of requests in memory what they ask, and prints it, a line for each.
//!
//! It stands on no path of the product and promises nothing: its stored output is the expectation,
//! worked out from the definitions, with marks that MD5 gave elsewhere. A line of standard input is
//! a request: its parts are parted by ` | `, and `%XX` in it is a byte. The first part is the method
//! and the target, one that begins with `body ` is the body, and each other is a header line.
#![tactic(auto)]

mod answers;

use crate::answers::answer;
use anyhow::{Context, Result, bail};
use http_routes::Paths;
use lib_base::Memory;
use std::io;

fn main(rt: HostRuntime) -> Result<()> {
    let alloc = rt.alloc();
    let text = io::read_to_string(alloc, rt.reader())?;
    let paths = match Paths::new(alloc) {
        Ok(paths) => paths,
        Err(Memory) => bail!("want of memory"),
    };
    for line in text.as_str().lines() {
        if !line.is_empty() && !line.starts_with('#') {
            rt.print(answer(alloc, &paths, line).context(line)?)?;
        }
    }
    Ok(())
}
