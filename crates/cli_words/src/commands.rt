//! Commands, and the words that give them.
ghost use Rattle.std.specs.Prelude.{◌≡◌, ◌≤◌, ℕ, List, map, IfOk, IfSome, string_bytes, option_map};
ghost use Rattle.std.specs.List.{list_all};
ghost use Rattle.cli_words.specs.Commands as model;
ghost use Rattle.cli_words.specs.Commands.{command_of, command_named, IsWithin};
ghost use Rattle.clap.specs.Words.{first_of, found_of, rows_of};

use crate::applications::{read_matches, serve_application, session_application};
use crate::numbers::{number_of, number_or};
use clap::ArgMatches;
use lib_base::{MOST_WORKERS, Memory};
use std::alloc::Global;

/// How many words a command has at most.
const MOST_WORDS: usize = 8;

/// How many workers measure a sound where the words say nothing.
const WORKERS: u32 = 4;

/// How many requests a session answers at most where the words say nothing.
const REQUESTS: u32 = 1_000_000;

/// How many connections are served at most.
const MOST_CONNECTIONS: u32 = 65_535;

/// A command with its numbers: 1 to 64 workers, 1 request or more, 1 to 65,535 connections.
#[derive(Clone, Copy, Debug, PartialEq, Eq)]
pub enum Command {
    /// Answers the requests of one input.
    Session {
        workers: u32,
        requests: u32,
    },
    /// Answers those of so many connections, one after another. `requests` counts for each alone.
    Serve {
        connections: u32,
        workers: u32,
        requests: u32,
    },
}

/// The command that the words give, without the program's name; None exactly where they give none.
pub fn read_command(alloc: Global, words: &[String]) -> Result<Option<Command>, Memory>
    ensures reads { IfOk result (λ command. command ≡ command_of (map string_bytes words.now)) }
    ensures within { IfOk result (λ command. IfSome command IsWithin) }
{
    match words.first() {
        Some(name) if are_put(words) => read_named(alloc, name.as_str(), words),
        _ => Ok(None),
    }
}

/// Whether the words are put to `clap`.
fn are_put(words: &[String]) -> bool
    ensures { result ≡ model.are_put (map string_bytes words.now) }
{
    words.len() <= MOST_WORDS && each_is_put(words)
}

fn each_is_put(words: &[String]) -> bool
    ensures { result ≡ list_all (λ word. model.is_put (string_bytes word)) words.now }
{
    words.iter().all(|word| is_put(word.as_str()))
}

/// Whether a word is put to `clap`: none that is empty, `--`, or has a single `-` in front.
fn is_put(word: &str) -> bool
    ensures { result ≡ model.is_put word.now }
{
    match word.as_bytes() {
        [] | [b'-'] | [b'-', b'-'] => false,
        [b'-', second, ..] => *second == b'-',
        _ => true,
    }
}

/// The command of this first word that the words give.
fn read_named(alloc: Global, name: &str, words: &[String]) -> Result<Option<Command>, Memory>
    ensures { IfOk result (λ command. command ≡ command_named name.now (map string_bytes words.now)) }
{
    match name {
        "session" => read_session(alloc, words),
        "serve" => read_serve(alloc, words),
        _ => Ok(None),
    }
}

fn read_session(alloc: Global, words: &[String]) -> Result<Option<Command>, Memory>
    ensures { IfOk result (λ command. command ≡ model.session_by (map string_bytes words.now)) }
{
    match read_matches(session_application(alloc)?, words)? {
        Some(matches) => Ok(session_in(&matches)),
        None => Ok(None),
    }
}

fn read_serve(alloc: Global, words: &[String]) -> Result<Option<Command>, Memory>
    ensures { IfOk result (λ command. command ≡ model.serve_by (map string_bytes words.now)) }
{
    match read_matches(serve_application(alloc)?, words)? {
        Some(matches) => Ok(serve_in(&matches)),
        None => Ok(None),
    }
}

/// The session of these options, where their values are numbers of it.
fn session_in(matches: &ArgMatches<'_>) -> Option<Command>
    ensures { result ≡ model.session_in (rows_of (found_of matches.now)) }
{
    Some(Command::Session {
        workers: workers_in(matches)?,
        requests: requests_in(matches)?,
    })
}

fn serve_in(matches: &ArgMatches<'_>) -> Option<Command>
    ensures { result ≡ model.serve_in (rows_of (found_of matches.now)) }
{
    Some(Command::Serve {
        connections: connections_in(matches)?,
        workers: workers_in(matches)?,
        requests: requests_in(matches)?,
    })
}

/// The connections of these options, which have no default.
fn connections_in(matches: &ArgMatches<'_>) -> Option<u32>
    ensures { result ≡ model.connections_in (rows_of (found_of matches.now)) }
{
    match value_of(matches, "connections") {
        Some(text) => number_of(text, MOST_CONNECTIONS),
        None => None,
    }
}

fn workers_in(matches: &ArgMatches<'_>) -> Option<u32>
    ensures { result ≡ model.workers_in (rows_of (found_of matches.now)) }
{
    number_or(value_of(matches, "workers"), MOST_WORKERS, WORKERS)
}

fn requests_in(matches: &ArgMatches<'_>) -> Option<u32>
    ensures { result ≡ model.requests_in (rows_of (found_of matches.now)) }
{
    number_or(value_of(matches, "requests"), u32::MAX, REQUESTS)
}

/// The value of an option, where it is there.
fn value_of<'a>(matches: &ArgMatches<'a>, name: &str) -> Option<&'a str>
    ensures { option_map (λ text. text.now) result ≡ first_of name.now (rows_of (found_of matches.now)) }
{
    matches.get_str(name)
}
