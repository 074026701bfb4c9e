// The incremental (delta) variant of a session, under its name. Both variants stand in xds_sessions.
#![tactic(auto)]

pub use xds_sessions::delta_session::Session;
