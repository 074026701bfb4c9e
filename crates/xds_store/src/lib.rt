// A store of stamped writes in one file that sqlite3 reads: the numbers that replicas took, and of each resource the
// greatest write.
#![tactic(auto)]

mod calls;
mod columns;
pub mod laws;
mod numbers;
mod opening;
mod reading;
mod refusal;
mod rows;
mod schema;
mod store;
mod writes;

pub use opening::{File, close_at, has_log, open_at, open_files, reopen_at, reopen_files};
pub use refusal::StoreRefusal;
pub use store::{FileStore, Store};
