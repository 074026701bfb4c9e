// How replicas tell each other what changed.

pub mod exchange;
pub mod from_peer;
pub mod parcels;
pub mod to_peer;
pub mod two_nodes;
