// The operator's port of a server: what it shows of its replicas, and the changes that are made there.
#![tactic(auto)]

pub mod admin;
mod changing;
pub mod joint;
mod page;
pub mod reached;
pub mod routes;
mod sharing;

pub use admin::Admin;
pub use reached::ReachedReplica;
pub use routes::{OperatorRoute, routed};
