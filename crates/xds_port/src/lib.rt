// Requests to an operator's port and to a checker of resources, as texts, and how what they are answered is read. No socket is known here.
#![tactic(auto)]

pub mod answer;
pub mod complaint;
pub mod deletions;
pub mod head;
pub mod target;
pub mod verdict;

pub use answer::{PortAnswer, answer_in};
pub use complaint::Complaint;
pub use deletions::delete_lines;
pub use head::head_text;
pub use target::{changes_target, resources_target};
pub use verdict::{Absence, Verdict, read_verdict};
