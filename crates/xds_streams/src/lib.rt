// The streams of a replica as tasks of a runtime: its threads are as many as are said, however many streams there are.
#![tactic(auto)]

mod arriving;
pub mod first_frame;
mod gate;
mod open_stream;
mod parting;
pub mod proxied;
mod stream_task;
pub mod streams;

pub use first_frame::FirstFrame;
pub use proxied::{Beginning, address_in, beginning_of};
pub use streams::serve_streams;
