// What a server notes while it runs, why a line of its input is refused, and how it ends.
#![tactic(auto)]

pub mod ending;
pub mod fault;
pub mod lookout;
pub mod note;
pub mod recent;

pub use ending::{End, Ending, Next, Telling};
pub use fault::{Fault, LongResponse};
pub use lookout::{Limits, Lookout};
pub use note::{Note, fault_line, refused_line, stamp_line};
