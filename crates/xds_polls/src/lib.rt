// Polls over HTTP before a replica is asked: their paths, how long a body may be, and what a reply is.
#![tactic(auto)]

pub mod head;
pub mod path;
pub mod reply;

pub use head::{MAX_BODY, addressed};
pub use path::type_of_path;
pub use reply::HttpReply;
