// What replicas tell each other: batches in parts, each of which fits a frame, and what changed since the last time; and the
// channel of 16 between two threads, on which what is taken is a beginning of what was put.
#![tactic(auto)]

pub mod ends;
pub mod laws;
pub mod merging;
pub mod moves;
pub mod outbox;
pub mod outbox_laws;
pub mod outcome;
pub mod peer;
pub mod rule;
mod weighing;

pub use ends::{Incoming, Outgoing, Taken, Unlinked};
pub use merging::apply;
pub use moves::link;
pub use outbox::Outbox;
pub use outcome::Round;
pub use peer::{PeerMarks, round};
