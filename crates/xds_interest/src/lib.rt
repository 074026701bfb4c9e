// What a client of an xDS control plane wants of one type, and what its requests leave of that.
#![tactic(auto)]

pub mod cluster;
pub mod delta;
pub mod interest;
pub mod laws;
mod lists;
pub mod names;
pub mod sotw;
pub mod touched;

pub use cluster::ClusterText;
pub use delta::DeltaNames;
pub use interest::{Interest, opens_star};
pub use lists::in_order;
pub use names::NameSet;
pub use sotw::SotwNames;
pub use touched::Touched;
