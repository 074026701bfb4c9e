// What a server keeps beside its replicas' streams: a store that is told what changes, a folder that says what is held, and what is
// looked at and told of both.
#![tactic(auto)]

pub mod linting;
pub mod moves;
pub mod opening;
pub mod refused;
pub mod sourcing;
pub mod storing;
