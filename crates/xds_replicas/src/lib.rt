// The replicas of a server: their threads, the streams that these serve, and the changes that are made there.
#![tactic(auto)]

pub mod fitting;
pub mod replica;
pub mod sizing;
pub mod together;
pub mod workers;

pub use workers::Shared;
