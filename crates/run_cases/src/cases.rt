//! Cases, read from the lines of a block.

use crate::files::{File, add_hex, find};
use crate::requests::{Next, add_length, add_line, add_request, set_next};
use anyhow::{Context, Result, bail};
use keeper_store::{Rows, Tables};
use std::alloc::Global;
use std::mem;

/// A run: its words, its inputs, and how its objects behave.
#[derive(Drop)]
pub struct Case<'a> {
    pub words: Vec<String>,
    /// The input of the source, and behind it those of the connections at the door.
    pub inputs: Vec<Vec<u8>>,
    /// What the lines before ask of the request that comes next.
    pub next: Next<'a>,
    /// How many bytes the source hands out at most in a read.
    pub piece: usize,
    /// How many bytes the sink takes at most in a write.
    pub room: usize,
    /// How many of the rows of a table, of the replies and of the keys are printed at most.
    pub brief: usize,
    pub failing: Failing,
    pub tables: Tables,
}

/// The calls of each object that fail, by their numbers from 1.
#[derive(Drop)]
pub struct Failing {
    pub source: Vec<u32>,
    pub sink: Vec<u32>,
    pub keeper: Vec<u32>,
    pub vault: Vec<u32>,
    pub door: Vec<u32>,
}

/// The lines of a case by its name.
#[derive(Drop)]
pub struct Lines<'a> {
    pub name: &'a str,
    pub lines: Vec<&'a str>,
}

/// What a case begins with: tables, and how many requests have come under a number of their own.
#[derive(Drop)]
pub struct Start {
    pub tables: Tables,
    pub numbered: u32,
}

/// The case that the lines give, over what it begins with, the files and the cases before it.
pub fn read_case<'a>(
    alloc: Global,
    start: Start,
    lines: &[&'a str],
    before: &[Lines<'a>],
    files: &[File],
) -> Result<Case<'a>> {
    let mut case = new_case(alloc, start)?;
    for line in lines {
        match line.split_once(' ') {
            Some(("over", _)) => {}
            Some(("like", name)) => obey_all(alloc, &mut case, lines_of(before, name)?, files)?,
            _ => obey(alloc, &mut case, line, files).context(format_args!("{line}"))?,
        }
    }
    Ok(case)
}

/// The lines of the case of a name.
pub fn lines_of<'a, 'b>(cases: &'b [Lines<'a>], name: &str) -> Result<&'b [&'a str]> {
    match cases.iter().find(|case| case.name == name) {
        Some(case) => Ok(case.lines.as_slice()),
        None => bail!("no case {name}"),
    }
}

/// Does what the lines of another case say.
fn obey_all<'a>(
    alloc: Global,
    case: &mut Case<'a>,
    lines: &[&'a str],
    files: &[File],
) -> Result<()> {
    for line in lines {
        obey(alloc, case, line, files).context(format_args!("{line}"))?;
    }
    Ok(())
}

/// The session over an empty input and no connection, in which nothing fails.
fn new_case<'a>(alloc: Global, start: Start) -> Result<Case<'a>> {
    let mut inputs = Vec::new(alloc);
    inputs.push(Vec::new(alloc))?;
    Ok(Case {
        words: words_of(alloc, "session")?,
        inputs,
        next: Next::plain(start.numbered),
        piece: usize::MAX,
        room: usize::MAX,
        brief: usize::MAX,
        failing: Failing {
            source: Vec::new(alloc),
            sink: Vec::new(alloc),
            keeper: Vec::new(alloc),
            vault: Vec::new(alloc),
            door: Vec::new(alloc),
        },
        tables: start.tables,
    })
}

/// Does what one line says.
fn obey<'a>(alloc: Global, case: &mut Case<'a>, line: &'a str, files: &[File]) -> Result<()> {
    let (word, rest) = line.split_once(' ').unwrap_or((line, ""));
    match word {
        "words" => case.words = words_of(alloc, rest)?,
        "fails" => set_failing(alloc, &mut case.failing, rest)?,
        "pieces" => case.piece = rest.parse::<usize>()?,
        "room" => case.room = rest.parse::<usize>()?,
        "brief" => case.brief = rest.parse::<usize>()?,
        "connection" => case.inputs.push(Vec::new(alloc))?,
        "token" | "named" | "into" | "times" | "closing" => set_next(&mut case.next, word, rest)?,
        "next-album" | "next-recording" | "next-take" | "row-album" => {
            set_tables(alloc, &mut case.tables, word, rest)?;
        }
        _ => add_input(alloc, case, word, rest, files)?,
    }
    Ok(())
}

/// Adds to the input that comes last what one line says.
fn add_input<'a>(
    alloc: Global,
    case: &mut Case<'a>,
    word: &str,
    rest: &'a str,
    files: &[File],
) -> Result<()> {
    let Some(input) = case.inputs.last_mut() else {
        bail!("no input");
    };
    match word {
        ">" => add_line(input, rest)?,
        "length" => add_length(alloc, input, find(files, rest)?.bytes.len())?,
        "body" => input.extend_from_slice(find(files, rest)?.bytes.as_slice())?,
        "hex" => add_hex(input, rest)?,
        "fill" => input.resize(rest.parse::<usize>()?, b'-')?,
        _ => add_request(alloc, input, &mut case.next, word, rest, files)?,
    }
    Ok(())
}

/// The words of a line. Two quotes stand for the empty one.
fn words_of(alloc: Global, text: &str) -> Result<Vec<String>> {
    let mut words = Vec::new(alloc);
    for word in text.split_whitespace() {
        let word = if word == "''" { "" } else { word };
        words.push(String::from_str(alloc, word)?)?;
    }
    Ok(words)
}

/// Sets which calls of an object fail.
fn set_failing(alloc: Global, failing: &mut Failing, words: &str) -> Result<()> {
    let (object, numbers) = words.split_once(' ').context("no call is numbered")?;
    let mut calls = Vec::new(alloc);
    for number in numbers.split_whitespace() {
        calls.push(number.parse::<u32>()?)?;
    }
    match object {
        "source" => failing.source = calls,
        "sink" => failing.sink = calls,
        "keeper" => failing.keeper = calls,
        "vault" => failing.vault = calls,
        "door" => failing.door = calls,
        _ => bail!("no such object"),
    }
    Ok(())
}

/// Changes the tables as a line says.
fn set_tables(alloc: Global, tables: &mut Tables, word: &str, rest: &str) -> Result<()> {
    match word {
        "next-album" => tables.next_album = rest.parse::<u32>()?,
        "next-recording" => tables.next_recording = rest.parse::<u32>()?,
        "next-take" => tables.next_take = rest.parse::<u32>()?,
        _ => set_album(alloc, tables, rest)?,
    }
    Ok(())
}

/// Writes the id of an album into the row of a recording: the recording's id, and the album's.
fn set_album(alloc: Global, tables: &mut Tables, words: &str) -> Result<()> {
    let (id, album) = words.split_once(' ').context("two ids are wanted")?;
    let (id, album) = (id.parse::<u32>()?, album.parse::<u32>()?);
    let none = Rows::of(Vec::new(alloc));
    let mut rows = mem::replace(&mut tables.recordings, none).into_vec();
    for row in rows.iter_mut() {
        if row.id == id {
            row.album = Some(album);
        }
    }
    tables.recordings = Rows::of(rows);
    Ok(())
}
