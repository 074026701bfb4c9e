// The REST variant: what a post asks for, and the reply to it, by a replica and by a node that threads share. The server that reads
// posts from sockets stands in xds_http, which needs no replica; it is passed on here.
#![tactic(auto)]

pub mod answering;
pub mod by_seat;
pub mod path;
pub mod post;
pub mod posts;
pub mod reply;
pub mod served;

pub use answering::answer;
pub use by_seat::{answer_at, reply_at};
pub use post::{Asked, ask};
pub use posts::Posts;
pub use reply::{HttpReply, reply_of};
pub use served::Served;
pub use xds_http::serve_http;
