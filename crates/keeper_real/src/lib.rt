//! A folder of files as a vault, and a database as a keeper.
//!
//! They tell no content. Each counts its faults, and says each in one line on standard error: the
//! object, and the system's reason. Making one calls nothing: the first use makes or opens what it
//! needs.
#![tactic(auto)]

mod archives;
mod blob_files;
mod blob_paths;
mod databases;
mod folders;
mod loading;
mod opening;
mod refusals;
mod saving;
mod schema;

pub use databases::SqliteKeeper;
pub use folders::FolderVault;
