// Why lines are refused, in words: of a server's input and of scripts, of stamped writes and requests, and of traces.
#![tactic(auto)]

pub mod cause;
pub mod fields;
pub mod likeness;
pub mod line_fault;
pub mod messages;
mod one_line;
mod script_lines;
mod trace_lines;

pub use cause::{Cause, cause_of};
pub use likeness::type_near;
pub use line_fault::LineFault;
pub use messages::{Message, message_cause, unknown_type};
pub use one_line::plain_line;
pub use script_lines::script_cause;
pub use trace_lines::trace_cause;
