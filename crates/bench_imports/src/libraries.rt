//! A library in memory, into which waves are imported.
ghost use Rattle.std.specs.Prelude.{◌≡◌, ◌≤◌, true, IfOk, IfSome};
ghost use Rattle.kept_replies.specs.Tokens.{text_of};
ghost use Rattle.library_model.specs.Stands.{BringsWithin, IsWithinLimit};
ghost use Rattle.catalogue_core.specs.Kept.{IsFresh};

use catalogue_core::{
    Command, Library, Question, Request, Seen, Staged, Token, ask, commit, stage, sweep,
};
use json_bodies::is_name;
use keeper_store::{MemKeeper, MemVault, Tables};
use lib_base::{Bytes, Memory, Steps, Text};
use library_model::limits::MOST_BODY_BYTES;
use measure_pool::OpenGate;
use std::alloc::Global;
use std::marker::Sync;
use std::sync::ledger::Ledger;
use std::thread::Threads;

/// The mark of each import, since each has a token of its own.
const MARK: [u8; 16] = [0; 16];

/// A library with its keeper and vault, which never fail.
#[derive(Drop)]
pub struct Opened {
    library: Library,
    keeper: MemKeeper,
    vault: MemVault,
}

impl Opened {
    /// A library that is opened over empty tables.
    pub fn new<R: Threads + Sync>(rt: &R, alloc: Global) -> Result<Opened, Memory> {
        let mut keeper = MemKeeper::new(Tables::empty(alloc), Vec::new(alloc));
        let Ok(library) = Library::open(rt, alloc, &mut keeper) else {
            return Err(Memory);
        };
        Ok(Opened {
            library,
            keeper,
            vault: MemVault::new(alloc, Vec::new(alloc)),
        })
    }

    /// Imports a file into that album or into none, under a token of that number: whether it was
    /// accepted.
    pub fn import<R: Threads + Sync, L: Ledger>(
        &mut self,
        rt: &R,
        alloc: Global,
        album: Option<u32>,
        file: &[u8],
        number: u32,
        steps: &mut Steps<L>,
    ) -> Result<bool, Memory> {
        match import_of(alloc, album, file)? {
            Some(command) => self.change(rt, alloc, command, number, steps),
            None => Ok(false),
        }
    }

    /// Adds an album without a name, under a token of that number: whether it was accepted.
    pub fn add_album<R: Threads + Sync, L: Ledger>(
        &mut self,
        rt: &R,
        alloc: Global,
        number: u32,
        steps: &mut Steps<L>,
    ) -> Result<bool, Memory> {
        match new_album_of(alloc)? {
            Some(command) => self.change(rt, alloc, command, number, steps),
            None => Ok(false),
        }
    }

    /// Moves a recording into that album, under a token of that number: whether it was accepted.
    pub fn regroup<R: Threads + Sync, L: Ledger>(
        &mut self,
        rt: &R,
        alloc: Global,
        recording: u32,
        album: u32,
        number: u32,
        steps: &mut Steps<L>,
    ) -> Result<bool, Memory> {
        let command = Command::Regroup {
            recording,
            album: Some(album),
        };
        self.change(rt, alloc, command, number, steps)
    }

    /// Makes a change by one worker, under a token of that number: whether it was accepted.
    fn change<R: Threads + Sync, L: Ledger>(
        &mut self,
        rt: &R,
        alloc: Global,
        command: Command,
        number: u32,
        steps: &mut Steps<L>,
    ) -> Result<bool, Memory>
        requires within { BringsWithin command }
    {
        let Some(token) = token_of(alloc, number)? else {
            return Ok(false);
        };
        if !is_fresh(&self.library, &token) {
            return Ok(false);
        }
        let request = Request {
            token,
            mark: MARK,
            command,
        };
        self.make(rt, request, steps)
    }

    /// Stages, commits and sweeps a request: whether it was accepted.
    fn make<R: Threads + Sync, L: Ledger>(
        &mut self,
        rt: &R,
        request: Request,
        steps: &mut Steps<L>,
    ) -> Result<bool, Memory>
        requires fresh { IsFresh self.old.library (text_of request.token) }
        requires within { BringsWithin request.command }
    {
        let staged = stage(
            rt,
            &mut self.library,
            request,
            &mut self.vault,
            1,
            &OpenGate,
            steps,
        )?;
        match staged {
            Staged::Refused(_) => Ok(false),
            Staged::Ready(ready) => {
                let reply = commit(&mut self.library, ready, &mut self.keeper);
                sweep(&mut self.library, &mut self.vault);
                Ok(reply.status < 300)
            }
        }
    }

    /// Asks for the recordings of the ids from 1 to the last, in so many rounds: how many were found.
    pub fn ask_for_all(&mut self, last: u32, rounds: u32) -> Result<u64, Memory> {
        let mut found = 0u64;
        for _ in 0..rounds {
            found = found.wrapping_add(self.ask_once(last)?);
        }
        Ok(found)
    }

    /// How many of the tokens of the numbers below the count something is kept under.
    pub fn count_kept(&self, alloc: Global, count: u32) -> Result<u64, Memory> {
        let mut kept = 0u64;
        for number in 0..count {
            if let Some(token) = token_of(alloc, number)? {
                if !is_fresh(&self.library, &token) {
                    kept = kept.wrapping_add(1);
                }
            }
        }
        Ok(kept)
    }

    fn ask_once(&mut self, last: u32) -> Result<u64, Memory> {
        let mut found = 0u64;
        for before in 0..last {
            let reply = ask(
                &self.library,
                &Question::Recording(before + 1),
                &mut self.vault,
            )?;
            if reply.status == 200 {
                found = found.wrapping_add(1);
            }
        }
        Ok(found)
    }
}

/// The token that spells the number.
fn token_of(alloc: Global, number: u32) -> Result<Option<Token>, Memory> {
    let text = format!(in alloc; "{number}")?;
    Token::of(alloc, text.as_bytes())
}

/// A new album without a name.
fn new_album_of(alloc: Global) -> Result<Option<Command>, Memory>
    ensures { IfOk result (λ command. IfSome command BringsWithin) }
{
    if !is_name(b"".as_slice()) {
        return Ok(None);
    }
    let name = Text::of(String::from_str(alloc, "")?);
    Ok(Some(Command::NewAlbum { name }))
}

/// The import of a file without a name, where the file is within the body limit.
fn import_of(alloc: Global, album: Option<u32>, file: &[u8]) -> Result<Option<Command>, Memory>
    ensures { IfOk result (λ command. IfSome command BringsWithin) }
{
    if !is_name(b"".as_slice()) || file.len() as u64 > MOST_BODY_BYTES {
        return Ok(None);
    }
    let name = Text::of(String::from_str(alloc, "")?);
    let bytes = Bytes::copy(alloc, file)?;
    Ok(Some(Command::Import { album, name, bytes }))
}

/// Whether nothing is kept under the token.
fn is_fresh(library: &Library, token: &Token) -> bool
    ensures { result ≡ true → IsFresh library.now (text_of token.now) }
{
    match library.seen(token, &MARK) {
        Seen::Fresh => true,
        Seen::Kept(_) => false,
        Seen::Other => false,
    }
}
