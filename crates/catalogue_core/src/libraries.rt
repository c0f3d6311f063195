//! The library: the rows that it keeps, its opening, and what is seen of its kept replies.
ghost use Rattle.catalogue_core.specs.Opening.{OpensTables};

use catalogue_rows::{CatalogueRows, NotOpened, open_rows};
use keeper_store::{Keeper, Tables};
use kept_replies::{Seen, Token};
use lib_base::Outside;
use library_model::BadRow;
use std::alloc::Global;
use std::thread::Threads;

/// Why a library isn't opened.
#[derive(Clone, Copy, Debug, PartialEq, Eq)]
pub enum OpenRefusal {
    /// A fault, which the keeper has counted.
    KeeperFault,
    /// The first row that breaks a rule.
    BadRow(BadRow),
    /// Want of memory.
    Memory,
}

/// The library: its counters and rows, with the tallies behind them. It holds no file.
#[derive(Debug, Drop)]
pub struct Library {
    pub(crate) alloc: Global,
    pub(crate) rows: CatalogueRows,
    /// The take that the last commit took out of the recordings, until it is swept.
    pub(crate) released: Option<u32>,
}

impl Library {
    ghost use Rattle.std.specs.Prelude.{◌≡◌};
    ghost use Rattle.kept_replies.specs.Seeing.{IfFresh};
    ghost use Rattle.kept_replies.specs.Tokens.{text_of};
    ghost use Rattle.library_model.specs.State.{State};
    ghost use Rattle.catalogue_core.specs.Kept.{IsFresh, Keeps, released_of};
    ghost use Rattle.catalogue_core.specs.Opening.{Opens};
    ghost use Rattle.catalogue_core.specs.Seeing.{Sees};

    /// Opens the library of the tables that the keeper loads. Where a row of them breaks a rule, the
    /// first is told, and the library is not opened.
    pub fn open<R: Threads + Sync, D: Keeper>(
        rt: &R,
        alloc: Global,
        keeper: &mut D,
    ) -> Result<Library, OpenRefusal>
        ensures { Opens (D.shown keeper.old) (D.shown keeper.new) result }
    {
        match keeper.load() {
            Ok(tables) => library_of(rt, alloc, tables),
            Err(Outside::Failed) => Err(OpenRefusal::KeeperFault),
            Err(Outside::Memory) => Err(OpenRefusal::Memory),
        }
    }

    /// What a request with this token and this mark sees: nothing that is kept, its own reply, or that
    /// the token is another request's. It takes no memory, and looks by halving.
    pub fn seen(&self, token: &Token, mark: &[u8; 16]) -> Seen<'_>
        ensures sees { (s : State) → Keeps self.now s → Sees s (text_of token.now) mark.now result }
        ensures fresh { IfFresh result (IsFresh self.now (text_of token.now)) }
    {
        self.rows.seen(token, mark)
    }

    /// The take that the last commit took out of the recordings, and that was not swept since: its
    /// file is to be dropped.
    pub fn released(&self) -> Option<u32>
        ensures { result ≡ released_of self.now }
    {
        self.released
    }
}

/// The library of these tables.
fn library_of<R: Threads + Sync>(
    rt: &R,
    alloc: Global,
    tables: Tables,
) -> Result<Library, OpenRefusal>
    ensures { OpensTables tables result }
{
    match open_rows(rt, alloc, tables) {
        Ok(rows) => Ok(Library {
            alloc,
            rows,
            released: None,
        }),
        Err(NotOpened::BadRow(bad)) => Err(OpenRefusal::BadRow(bad)),
        Err(NotOpened::Memory) => Err(OpenRefusal::Memory),
    }
}
