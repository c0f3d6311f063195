//! The catalogue: the library as a machine over a keeper and a vault.
//!
//! `seen` tells a request's token, `stage` decides a request of a fresh one, takes all the memory that
//! accepting it wants, and puts its file into the vault; `commit` makes the change with one `apply` of
//! the keeper; `sweep` drops the file of the take that the change took out; `ask` answers a question.
//! They promise that each reply is one that the machine gives from the state that the library keeps,
//! that a fault is answered only where it was counted, and that the library keeps the tables of the
//! state that the reply leads to. Stopped anywhere between them, the old state stands or the new one.
#![tactic(auto)]

mod albums;
mod asking;
mod committing;
mod deciding;
mod examining;
mod importing;
mod libraries;
mod looking;
mod planning;
mod plans;
mod prepared;
mod putting;
mod refusing;
mod regrouping;
mod removing;
mod requests;
mod resumming;
mod retaking;
mod settling;
mod staging;
mod sweeping;
mod takes;

pub use asking::ask;
pub use committing::commit;
pub use kept_replies::{Seen, Token};
pub use libraries::{Library, OpenRefusal};
pub use library_model::{BadRow, BodyKind, Command, Question, Reply};
pub use prepared::{Prepared, Staged};
pub use requests::Request;
pub use staging::stage;
pub use sweeping::sweep;
