// Traces of replicas, of nodes and of worlds: how they are made of what happened, and that they keep the rules. The trace itself,
// how it is read and written, and its checker stand in xds_check, which knows no replica; they are passed on here.
#![tactic(auto)]

mod bases;
pub mod histories;
pub mod histories_laws;
pub mod laws;
pub mod telling;
pub mod texts;
pub mod worlds;

pub use histories::{of_audited, of_history};
pub use telling::{push_record, trace_of};
pub use texts::{write_history, write_segment};
pub use worlds::of_world;
pub use xds_check::{Broken, Trace, TraceFault, check};
