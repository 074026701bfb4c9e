// The state-of-the-world variant of a session, under its name, and what a client is answered that polls without one. Both variants stand
// in xds_sessions.
#![tactic(auto)]

pub use xds_sessions::rested;
pub use xds_sessions::sotw_session::Session;
