// The commands that need no replica: those of a client, those that ask an operator's port, and those that read a store.
#![tactic(auto)]

pub mod asking;
pub mod drawing;
pub mod polling;
pub mod progress;
mod telling;
mod timed;
pub mod watching;
pub mod writes;
