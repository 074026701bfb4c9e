// What flows through a node: its streams, read and written by threads or by polls, from the bytes of their requests to those of
// their responses; and what nodes tell each other.
#![tactic(auto)]

pub mod laws;
pub mod replication;
pub mod streams;

pub use replication::exchange::Ended;
pub use replication::from_peer::exchange_in;
pub use replication::parcels::{Parcel, Receipt};
pub use replication::to_peer::exchange_out;
pub use replication::two_nodes::{Exchanged, exchange_both};
pub use streams::known::{KnownRead, KnownWrite};
pub use streams::poll_reader::{ReadEnd, Reading, ReadingHalf, poll_requests};
pub use streams::poll_writer::{WriteEnd, Writing, WritingHalf, poll_responses};
pub use streams::reader::serve_reader;
pub use streams::reading::{fill, next_request};
pub use streams::running::run_stream;
pub use streams::sending::send;
pub use streams::ways::{ByCalls, ByPolls, Reads, Writes};
pub use streams::writer::serve_writer;
