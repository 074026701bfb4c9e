// What broke in a recorded trace, in words, and pictures of traces and scripts as SVG.
#![tactic(auto)]

mod account;
mod best;
pub mod explanation;
mod faults;
mod labels;
pub mod ladder;
pub mod laws;
mod looks;
pub mod mesh;
pub mod sentences;
mod sheet;
mod telling;
pub mod texts;

pub use explanation::explain;
pub use ladder::trace_picture;
pub use mesh::script_picture;
pub use sentences::sentence_of;
