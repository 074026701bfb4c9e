// What a server shows to a checker before it takes it.
#![tactic(auto)]

pub mod checked_changes;
pub mod checker;
pub mod validating;
