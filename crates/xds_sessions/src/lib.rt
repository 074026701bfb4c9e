// Sessions: one type on one stream, in both variants (state of the world, and incremental); and what a client is answered that
// polls without one.
#![tactic(auto)]

mod delta_response;
pub mod delta_session;
pub mod laws;
pub mod published;
mod rest;
pub mod session;
mod sotw_response;
pub mod sotw_session;
pub mod speaks;
pub mod wildcards;

pub use delta_response::Said;
pub use published::Published;
pub use rest::{rested, texts_of};
pub use session::Session;
pub use speaks::Speaks;
pub use wildcards::Wildcard;
