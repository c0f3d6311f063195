//! What the library keeps: tables of rows under a keeper, and blobs of bytes in a vault.
//!
//! It promises that a batch of changes reaches the tables whole or not at all, that a call of a
//! vault touches no key but its own, that each object counts its faults and answers a fault only
//! where that count rose in the call, and that the objects in memory tell what they hold.
#![tactic(auto)]

mod contents;
mod drops;
mod energy_bytes;
mod keepers;
mod lookups;
mod places;
mod row_tables;
mod row_types;
mod vaults;

pub use contents::{Batch, Change, Changes, NextNumbers, Tables};
pub use drops::{Numbered, drop_row};
pub use energy_bytes::{RowFault, bytes_of, energies_of};
pub use keepers::{Keeper, MemKeeper};
pub use lookups::{find_place, find_row};
pub use places::{Ranked, put_row};
pub use row_tables::RowTables;
pub use row_types::{AlbumRow, RecordingRow, ReplyRow, Rows, SegmentRow};
pub use vaults::{MemVault, Vault};
