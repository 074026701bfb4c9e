// Worlds of replicas and clients: what happens in one, and what holds of it whatever does (the headline); and a world that runs,
// with the clients on their streams and those that poll.
#![tactic(auto)]

mod client;
pub mod laws;
pub mod link;
pub mod parts;
pub mod peer;
mod run;
pub mod settling;
mod site;
mod state;
pub mod world;

pub use link::{Link, Step};
pub use peer::{Peer, PeerStatus};
pub use settling::{Settlement, Unsettled, settle};
pub use world::{World, more, play};
