// What a server takes of its machine: threads and channels between them, times at which to give up, connections, folders and stores, and
// what it uses.
#![tactic(auto)]

pub mod bearing;
pub mod deadline;
pub mod door;
pub mod files;
pub mod folder;
pub mod machine;
pub mod meter;
pub mod port_client;
pub mod stores;
pub mod threads;
pub mod wires;

pub use folder::ReadsFolders;
pub use machine::{Machine, Runtime};
pub use stores::OpensStores;
