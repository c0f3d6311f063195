//! The lines that a run writes.
ghost use Rattle.std.specs.Prelude.{◌≡◌, ◌≢◌, IfOk, string_bytes};
ghost use Rattle.lib_base.specs.Faults.{CountsFault};
ghost use Rattle.lib_base.specs.Writes.{WritesAll};
ghost use Rattle.report_cli.specs.Lines as lines;
ghost use Rattle.report_cli.specs.Lines.{usage_line, bad_row_line, end_line, Prints};
ghost use Rattle.report_cli.specs.Statuses.{code};

use crate::statuses::Status;
use lib_base::{Memory, Outside, Sink, write_all};
use library_http::{How, SessionEnd};
use library_model::BadRow;
use std::alloc::Global;

/// The line for words that are no command.
const USAGE: &[u8] = b"usage: loudlib session, serve, report, audit, trial or tag\n";

/// Writes the line for words that are no command.
pub(crate) fn print_usage<K: Sink>(sink: &mut K) -> Status
    ensures prints { Prints usage_line Status.Usage (K.shown sink.old) (K.shown sink.new) (code result) }
    ensures faults { CountsFault (result ≡ Status.SinkFault) (K.shown sink.old).faults (K.shown sink.new).faults }
{
    print(sink, USAGE, Status::Usage)
}

/// Writes the line for a row that breaks a rule.
pub(crate) fn print_bad_row<K: Sink>(alloc: Global, bad: BadRow, sink: &mut K) -> Status
    ensures prints { Prints (bad_row_line bad) Status.BadRow (K.shown sink.old) (K.shown sink.new) (code result) }
    ensures faults { CountsFault (result ≡ Status.SinkFault) (K.shown sink.old).faults (K.shown sink.new).faults }
{
    match bad_row_text(alloc, bad) {
        Ok(text) => print(sink, text.as_bytes(), Status::BadRow),
        Err(Memory) => Status::Memory,
    }
}

/// Writes the line for the connection of that number, whose session ended so.
pub(crate) fn print_end<K: Sink>(
    alloc: Global,
    number: u32,
    end: SessionEnd,
    sink: &mut K,
) -> Result<(), Outside>
    ensures { WritesAll (K.shown sink.old) (K.shown sink.new) (end_line number (lines.end_word end.how) end.answered) result }
{
    let text = end_text(alloc, number, end_word(end.how), end.answered)?;
    write_all(sink, text.as_bytes())
}

/// The line for a row that breaks a rule.
fn bad_row_text(alloc: Global, bad: BadRow) -> Result<String, Memory>
    ensures { IfOk result (λ text. string_bytes text ≡ bad_row_line bad) }
{
    let text = format!(in alloc; "bad row: {bad}\n")?;
    Ok(text)
}

/// The line for the connection of that number, by the word for its end.
fn end_text(alloc: Global, number: u32, word: &str, answered: u32) -> Result<String, Memory>
    ensures { IfOk result (λ text. string_bytes text ≡ end_line number word.now answered) }
{
    let text = format!(in alloc; "connection {number} {word} {answered}\n")?;
    Ok(text)
}

/// The word for how a connection ended.
fn end_word(how: How) -> &'static str
    ensures { result.now ≡ lines.end_word how }
{
    match how {
        How::Ended => "ended",
        How::Unframeable => "unframeable",
        How::Turns => "turns",
        How::SourceFault => "source-fault",
        How::SinkFault => "sink-fault",
        How::Memory => "memory",
    }
}

/// Writes a line, and answers the status that is meant, or why the line wasn't written whole.
fn print<K: Sink>(sink: &mut K, line: &[u8], meant: Status) -> Status
    ensures prints { Prints line.now meant (K.shown sink.old) (K.shown sink.new) (code result) }
    ensures faults { CountsFault ((result ≡ Status.SinkFault) × (meant ≢ Status.SinkFault))
        (K.shown sink.old).faults (K.shown sink.new).faults }
{
    match write_all(sink, line) {
        Ok(()) => meant,
        Err(Outside::Failed) => Status::SinkFault,
        Err(Outside::Memory) => Status::Memory,
    }
}
