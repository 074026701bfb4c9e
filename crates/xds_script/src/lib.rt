// The scripts that a world is read from: their lines, the commands that these say, and what may happen.
#![tactic(auto)]

pub mod command;
pub mod event;
pub mod lines;
mod numbers;
mod plain;
pub mod script;
mod texts;
mod words;

pub use command::Command;
pub use event::{AnswerFate, ClientKind, Wish, WorldEvent};
pub use script::{ScriptFault, read_line, read_script};
