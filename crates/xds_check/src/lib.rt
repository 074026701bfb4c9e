// Whether a trace keeps the rules that every trace of a replica keeps: the first line that breaks one, and the least rule that
// it breaks.
// Traces of what a replica did: their lines, as texts and as values, and the rules that every trace of a replica keeps.
#![tactic(auto)]

pub mod answer;
pub mod asking;
mod by_type;
pub mod checker;
pub mod checking;
mod judge;
mod judges;
mod judging;
pub mod laws;
pub mod line;
mod live_names;
mod marks;
mod offering;
mod order;
pub mod piecewise;
pub mod reading;
pub mod rule;
pub mod statement;
mod talk;
pub mod trace;
pub mod words;

pub use answer::Answer;
pub use asking::Asking;
pub use by_type::ByType;
pub use checker::Checker;
pub use checking::{Broken, check};
pub use line::Line;
pub use piecewise::PiecewiseChecker;
pub use reading::read_line;
pub use rule::Rule;
pub use statement::{Label, Statement};
pub use trace::{Trace, TraceFault};
