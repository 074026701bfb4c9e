// Playing scripts of worlds: what that prints, and the traces of what happened.
#![tactic(auto)]

pub mod play;
pub mod show;
pub mod tracing;

pub use play::{Play, Unplayed, play_all, play_commands, play_script};
pub use tracing::{trace_commands, trace_script};
