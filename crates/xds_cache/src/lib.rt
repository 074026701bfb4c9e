// Clients of an xDS control plane, which take each response whole or reject it whole.
// What a client keeps of one type, and why it rejects a resource of a response.
// What a response leaves of what a client keeps of its type, in both variants.
#![tactic(auto)]

pub mod accept;
pub mod asks;
pub mod cache;
mod client;
pub mod delta;
pub mod delta_response;
pub mod faults;
pub mod holding;
mod in_place;
pub mod judged;
pub mod laws;
pub mod link;
mod rejection;
pub mod rest;
pub mod shelf;
mod shelves;
pub mod sotw;
pub mod sotw_response;
pub mod streaming;
pub mod wants;

pub use accept::{Accept, AcceptAll, Marked};
pub use asks::Asks;
pub use cache::Cache;
pub use delta::DeltaClient;
pub use holding::Holding;
pub use link::{Down, LinkState, Up};
pub use rest::RestClient;
pub use sotw::SotwClient;
pub use streaming::StreamingClient;
pub use wants::Wants;
