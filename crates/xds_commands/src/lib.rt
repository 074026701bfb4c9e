// Each command of `xds` by its words, with a network beside it.
#![tactic(auto)]

pub mod commands;

pub use commands::run;
