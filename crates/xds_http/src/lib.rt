// REST over HTTP: the server of polls, at a node that threads share, and one poll of a server.
#![tactic(auto)]

pub mod accept;
pub mod pages;
pub mod polling;
pub mod question;
pub mod replies;
pub mod response;
pub mod serve;
pub mod service;
pub mod site;
pub mod told;

pub use pages::{Head, Page, Pages, Part};
pub use polling::{Connects, PostsRequests, poll, poll_by};
pub use question::Question;
pub use replies::{Replies, Seats};
pub use serve::{MAX_CONNECTIONS, serve_http, serve_on, serve_some};
pub use site::serve_pages;
pub use told::Told;
