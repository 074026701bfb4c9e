// A replica that many threads share. The node: one lock, one journal, seats that were told what stands in it, and the tokens that
// show this. And what the threads round a node know of it: a `Host`, and a `Gate` that they pass.
#![tactic(auto)]

pub mod node;
pub mod streams;

pub use node::asking::draft_in;
pub use node::calls::called;
pub use node::concerns::TypeSet;
pub use node::desk::{Desk, MOST_RECORDS, WaitEnd};
pub use node::history::History;
pub use node::holding::TokenHolding;
pub use node::line::JournalLine;
pub use node::rule::NodeName;
pub use node::seat::{Seat, Unrecorded};
pub use node::segment::Segment;
pub use node::shared::SharedNode;
pub use node::token::{Opened, Token, Tokens};
pub use streams::hosts::{Gate, Host, NoGate, Place};
