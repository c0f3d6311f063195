//! The bytes that were taken from a source and are not used.
ghost use Rattle.std.specs.Prelude.{◌≡◌, ◌≤◌, ◌<◌, ◌+◌, length, drop, IfOk, [], vec_capacity};
ghost use Rattle.http_model.specs.Requests.{HasNoHead, head_limit};
ghost use Rattle.http_inbox.specs.Inboxes.{DrawsPiece, FindsAtEnd, ReadsHead, TriesHead};

use crate::filling::{read_behind, zeros};
use crate::heads::{Heading, Look, look_at};
use http_model::limits::MOST_HEAD_BYTES;
use lib_base::{Failed, Memory, Source};
use std::alloc::Global;
use std::marker::Model;

/// The bytes that were taken from a source and are not used, at most 8,192: as many as a head may
/// have. Only `new` takes memory.
#[derive(Drop)]
pub struct Inbox {
    room: Vec<u8>,
    count: usize,
}

impl Model for Inbox {
    ghost use Rattle.std.specs.Prelude.{◌≡◌, ◌≤◌, ℕ, List, length, take};
    ghost use Rattle.http_model.specs.Requests.{head_limit};

    ghost Value = { List ℕ };

    ghost view = { λ a. take a.count a.room.items };

    ghost invariant = { λ a. (a.count ≤ length a.room.items) × (length a.room.items ≡ head_limit) };
}

/// What reading a head found.
pub enum HeadRead {
    /// No byte is there, and the source is at its end.
    Ended,
    /// A head begins the bytes, and its parts lie there.
    Head(Heading),
    /// No head within the limits begins the bytes, however they go on, or the source is at its end
    /// and none begins them as they are.
    NoHead,
    /// A read failed.
    Fault,
}

impl Inbox {
    /// An inbox with nothing in it. It takes all the memory that it needs.
    #[tactic(auto, unfolding(http_model::specs::Requests::head_limit))]
    pub fn new(alloc: Global) -> Result<Inbox, Memory>
        ensures { IfOk result (λ inbox. inbox ≡ []) }
    {
        Ok(Inbox {
            room: zeros(alloc, MOST_HEAD_BYTES)?,
            count: 0,
        })
    }

    /// The bytes.
    pub fn bytes(&self) -> &[u8]
        ensures value { result.now ≡ self.now }
        ensures short { length self.now ≤ head_limit }
    {
        self.room.as_slice().split_at(self.count).0
    }

    /// Reads until a head begins the bytes, or none can. It reads only while no head is there, and
    /// at most as many bytes as a head may have.
    pub fn read_head<S: Source>(&mut self, source: &mut S) -> HeadRead
        ensures { ReadsHead (S.shown source.old) (S.shown source.new) self.old self.new result }
    {
        'pieces: loop {
            if let Some(read) = self.try_head(source) {
                return read;
            }
        }
    }

    /// Lets the request of that heading go, whose body has `size` bytes: what follows it stays, and
    /// moves to the front.
    pub fn pass(&mut self, heading: &Heading, size: usize)
        ensures { self.new ≡ drop (heading.now.len + size) self.old }
    {
        self.let_go(heading.len.saturating_add(size).min(self.count));
    }

    /// Lets so many of the bytes go from the front.
    fn let_go(&mut self, count: usize)
        requires { count ≤ length self.old }
        ensures { self.new ≡ drop count self.old }
    {
        self.room.copy_within(count..self.count, 0);
        self.count -= count;
    }

    /// Looks for a head, and reads one piece where none is there as yet.
    fn try_head<S: Source>(&mut self, source: &mut S) -> Option<HeadRead>
        ensures { TriesHead (S.shown source.old) (S.shown source.new) self.old self.new result }
    {
        match look_at(self.bytes()) {
            Look::Head(heading) => Some(HeadRead::Head(heading)),
            Look::Never => Some(HeadRead::NoHead),
            Look::Open => self.read_on(source),
        }
    }

    /// Reads one piece of a head that is not there as yet.
    fn read_on<S: Source>(&mut self, source: &mut S) -> Option<HeadRead>
        requires none { HasNoHead self.old }
        requires short { length self.old < head_limit }
        ensures { TriesHead (S.shown source.old) (S.shown source.new) self.old self.new result }
    {
        match self.draw(source) {
            Ok(0) => Some(self.at_end()),
            Ok(_) => None,
            Err(Failed) => Some(HeadRead::Fault),
        }
    }

    /// What stands at the end of a source where no head begins the bytes.
    fn at_end(&self) -> HeadRead
        requires none { HasNoHead self.now }
        ensures { FindsAtEnd self.now result }
    {
        if self.count == 0 {
            HeadRead::Ended
        } else {
            HeadRead::NoHead
        }
    }

    /// Reads one piece to behind the bytes that are there.
    fn draw<S: Source>(&mut self, source: &mut S) -> Result<usize, Failed>
        ensures { DrawsPiece (S.shown source.old) (S.shown source.new) self.old self.new result }
    {
        match read_behind(source, self.room.as_mut_slice(), self.count) {
            Ok(count) => {
                self.count += count;
                Ok(count)
            }
            Err(Failed) => Err(Failed),
        }
    }
}
