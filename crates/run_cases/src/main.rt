//! Runs the program over objects in memory, case by case, and prints what comes of each run.
//!
//! It stands on no path of the product and promises nothing: its stored output is the expectation,
//! worked out from the definitions. The text of cases comes from standard input, in blocks that an
//! empty line parts. `docs/CASES.md` says what the lines mean.
#![tactic(auto)]

mod cases;
mod files;
mod pieces;
mod reports;
mod requests;
mod runs;

use crate::cases::{Lines, Start, lines_of, read_case};
use crate::files::{File, make_file};
use crate::reports::report;
use crate::runs::run_case;
use anyhow::{Context, Result, bail};
use keeper_store::Tables;
use lib_base::Memory;
use std::alloc::Global;
use std::io;
use std::thread::Threads;

fn main(rt: HostRuntime) -> Result<()> {
    let alloc = rt.alloc();
    let text = io::read_to_string(alloc, rt.reader())?;
    let mut told = Told::new(alloc);
    for block in text.as_str().split("\n\n") {
        rt.print(told.obey(&rt, alloc, block)?)?;
    }
    Ok(())
}

/// What the blocks so far have told.
#[derive(Drop)]
struct Told<'a> {
    files: Vec<File>,
    cases: Vec<Lines<'a>>,
}

impl<'a> Told<'a> {
    fn new(alloc: Global) -> Told<'a> {
        Told {
            files: Vec::new(alloc),
            cases: Vec::new(alloc),
        }
    }

    /// Makes the file of a block, or runs its case and answers the report.
    fn obey<R: Threads + Sync>(&mut self, rt: &R, alloc: Global, block: &'a str) -> Result<String> {
        let mut lines: Vec<&'a str> = block
            .lines()
            .filter(|line| !line.starts_with('#') && !line.is_empty())
            .collect(alloc)?;
        if lines.is_empty() {
            return Ok(String::new(alloc));
        }
        let head = lines.remove(0);
        match head.split_once(' ') {
            Some(("file", name)) => {
                let file = make_file(alloc, name, lines.as_slice()).context(head)?;
                self.files.push(file)?;
                Ok(String::new(alloc))
            }
            Some(("case", name)) => {
                let report = self.run(rt, alloc, name, lines.as_slice()).context(head)?;
                self.cases.push(Lines { name, lines })?;
                Ok(report)
            }
            _ => bail!("neither a file nor a case: {head}"),
        }
    }

    /// Runs the case of the lines and answers the report.
    fn run<R: Threads + Sync>(
        &self,
        rt: &R,
        alloc: Global,
        name: &str,
        lines: &[&'a str],
    ) -> Result<String> {
        let start = self.start(rt, alloc, lines)?;
        let (files, cases) = (self.files.as_slice(), self.cases.as_slice());
        let case = read_case(alloc, start, lines, cases, files)?;
        let brief = case.brief;
        report(alloc, name, brief, &run_case(rt, alloc, case)?)
    }

    /// What a case begins with: what the case leaves over which it runs, or empty tables.
    fn start<R: Threads + Sync>(&self, rt: &R, alloc: Global, lines: &[&'a str]) -> Result<Start> {
        let empty = Start {
            tables: Tables::empty(alloc),
            numbered: 0,
        };
        let Some(name) = lines.iter().find_map(|line| line.strip_prefix("over ")) else {
            return Ok(empty);
        };
        let (files, cases) = (self.files.as_slice(), self.cases.as_slice());
        let before = read_case(alloc, empty, lines_of(cases, name)?, cases, files)?;
        let numbered = before.next.numbered;
        match run_case(rt, alloc, before)?.keeper.tables() {
            Ok(tables) => Ok(Start { tables, numbered }),
            Err(Memory) => bail!("want of memory"),
        }
    }
}
