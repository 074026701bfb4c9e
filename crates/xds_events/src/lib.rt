// What may happen at a replica, what it answers, what it holds of all types, and the definition of its steps (`specs`), which xds_core
// takes.
#![tactic(auto)]

pub mod catalogues;
mod changed;
pub mod event;
pub mod parts;
mod pending;
pub mod request;

pub use catalogues::{Catalogues, Marks};
pub use event::{Event, Record, Reply};
pub use request::{Request, cluster_in};
