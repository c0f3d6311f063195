//! What a run leaves, as text.

use crate::runs::Outcome;
use anyhow::{Result, bail};
use keeper_store::{AlbumRow, RecordingRow, ReplyRow, SegmentRow, Tables};
use lib_base::{Bytes, Memory};
use md5::{Digest, Md5};
use std::alloc::Global;
use std::collections::BTreeMap;
use std::fmt::Write;

/// How a reply begins.
const REPLY: &[u8] = b"HTTP/1.1 ";

/// Tells of a run its status, its output, what each connection wrote, the tables and the keys that it
/// leaves, and how often it called the vault. Of the lines of one kind the last are printed, as many
/// as `brief` says.
pub fn report(alloc: Global, name: &str, brief: usize, outcome: &Outcome) -> Result<String> {
    let status = outcome.status;
    let mut text = format!(in alloc; "case {name}\nstatus {status}\n")?;
    add_output(alloc, &mut text, "output", brief, outcome.sink.written())?;
    for (place, output) in outcome.door.written().iter().enumerate() {
        let number = place.saturating_add(1);
        let kind = format!(in alloc; "connection {number}")?;
        add_output(alloc, &mut text, kind.as_str(), brief, output.as_slice())?;
    }
    match outcome.keeper.tables() {
        Ok(tables) => add_tables(&mut text, brief, &tables)?,
        Err(Memory) => bail!("want of memory"),
    }
    add_keys(&mut text, brief, outcome.vault.blobs())?;
    writeln!(text, "calls of the vault {}\n", outcome.vault.calls())?;
    Ok(text)
}

/// Adds an output. A line of the text begins where a reply does, and the output's own line ends are
/// written out.
fn add_output(
    alloc: Global,
    text: &mut String,
    kind: &str,
    brief: usize,
    output: &[u8],
) -> Result<()> {
    let replies = replies_of(alloc, output)?;
    let skipped = skip(text, kind, brief, replies.len())?;
    for reply in replies.iter().skip(skipped) {
        write!(text, "{kind} ")?;
        for byte in reply.iter() {
            add_escaped(text, *byte)?;
        }
        writeln!(text)?;
    }
    Ok(())
}

/// The output, cut where a reply begins.
fn replies_of<'a>(alloc: Global, output: &'a [u8]) -> Result<Vec<&'a [u8]>> {
    let mut replies = Vec::new(alloc);
    let (mut rest, mut begin) = (output, 0usize);
    for place in 1..output.len() {
        if output.split_at(place).1.starts_with(REPLY) {
            let length = place.saturating_sub(begin).min(rest.len());
            let (reply, behind) = rest.split_at(length);
            replies.push(reply)?;
            (rest, begin) = (behind, place);
        }
    }
    if !rest.is_empty() {
        replies.push(rest)?;
    }
    Ok(replies)
}

/// Says how many lines of a kind are not printed, where there are more than so many, and answers it.
fn skip(text: &mut String, kind: &str, brief: usize, count: usize) -> Result<usize> {
    let skipped = count.saturating_sub(brief);
    if skipped > 0 {
        writeln!(text, "{kind}: {skipped} more")?;
    }
    Ok(skipped)
}

/// Adds a byte, written out where it is no printing character.
fn add_escaped(text: &mut String, byte: u8) -> Result<()> {
    match byte {
        b'\r' => text.push_str("\\r")?,
        b'\n' => text.push_str("\\n")?,
        b'\\' => text.push_str("\\\\")?,
        b' '..=b'~' => text.push(char::from(byte))?,
        _ => write!(text, "\\x{byte:02x}")?,
    }
    Ok(())
}

/// Adds a name in quotes.
fn add_name(text: &mut String, name: &str) -> Result<()> {
    text.push('"')?;
    for byte in name.as_bytes() {
        add_escaped(text, *byte)?;
    }
    text.push('"')?;
    Ok(())
}

/// Adds the tables: a line for the counters, and a line for each row. All albums are printed.
fn add_tables(text: &mut String, brief: usize, tables: &Tables) -> Result<()> {
    let (album, recording, take) = (tables.next_album, tables.next_recording, tables.next_take);
    writeln!(text, "counters {album} {recording} {take}")?;
    for row in tables.albums.as_slice() {
        add_album(text, row)?;
    }
    let rows = tables.recordings.as_slice();
    let skipped = skip(text, "recordings", brief, rows.len())?;
    for row in rows.iter().skip(skipped) {
        add_recording(text, row)?;
    }
    let rows = tables.segments.as_slice();
    let skipped = skip(text, "segments", brief, rows.len())?;
    for row in rows.iter().skip(skipped) {
        add_segments(text, row)?;
    }
    let rows = tables.replies.as_slice();
    let skipped = skip(text, "kept", brief, rows.len())?;
    for row in rows.iter().skip(skipped) {
        add_kept(text, row)?;
    }
    Ok(())
}

fn add_album(text: &mut String, row: &AlbumRow) -> Result<()> {
    write!(text, "album {}: name ", row.id)?;
    add_name(text, row.name.as_str())?;
    writeln!(text, ", {:?}", row.summary)?;
    Ok(())
}

fn add_recording(text: &mut String, row: &RecordingRow) -> Result<()> {
    write!(text, "recording {}: take {}, ", row.id, row.take)?;
    write!(
        text,
        "{:?}, {} channels, {} bits, ",
        row.kind, row.channels, row.depth
    )?;
    write!(text, "album {:?}, name ", row.album)?;
    add_name(text, row.name.as_str())?;
    text.push_str(", md5 ")?;
    add_hex(text, row.digest.as_slice())?;
    writeln!(text, ", {:?}", row.summary)?;
    Ok(())
}

fn add_segments(text: &mut String, row: &SegmentRow) -> Result<()> {
    write!(text, "segments {}: ", row.take)?;
    add_bytes(text, &row.energies)
}

fn add_kept(text: &mut String, row: &ReplyRow) -> Result<()> {
    write!(text, "kept {}: mark ", row.token.as_str())?;
    add_hex(text, row.mark.as_slice())?;
    write!(text, ", status {}, ", row.status)?;
    add_bytes(text, &row.body)
}

/// Adds what the keys of a vault hold, a line for each.
fn add_keys(text: &mut String, brief: usize, blobs: &BTreeMap<u32, Bytes>) -> Result<()> {
    let skipped = skip(text, "keys", brief, blobs.len())?;
    for (key, bytes) in blobs.iter().skip(skipped) {
        write!(text, "key {key}: ")?;
        add_bytes(text, bytes)?;
    }
    Ok(())
}

/// Adds how many bytes there are, and their MD5.
fn add_bytes(text: &mut String, bytes: &Bytes) -> Result<()> {
    write!(text, "{} bytes, md5 ", bytes.len())?;
    add_hex(text, Md5::digest(bytes.as_slice()).as_slice())?;
    writeln!(text)?;
    Ok(())
}

fn add_hex(text: &mut String, bytes: &[u8]) -> Result<()> {
    for byte in bytes {
        write!(text, "{byte:02x}")?;
    }
    Ok(())
}
