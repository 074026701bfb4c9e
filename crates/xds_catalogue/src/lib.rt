// What one replica holds of one resource type: the greatest write of each name.
#![tactic(auto)]

mod batch;
pub mod by_number;
pub mod catalogue;
pub mod laws;
mod names;
mod numbers;
pub mod pending;
mod tables;

pub use by_number::ByNumber;
pub use catalogue::Catalogue;
pub use pending::PendingJoin;
