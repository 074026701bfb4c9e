// The programs of a replicated xDS control plane, over the readers and writers that they are given.
#![tactic(auto)]

pub mod answer;
mod command_line;
mod drawn;
mod gathering;
mod help;
pub mod judge;
mod last_line;
pub mod laws;
mod option_values;
pub mod output;
mod reasons;
pub mod run;
pub mod stamped;
pub mod tail;
pub mod tasks;
pub mod words;
pub mod wrong_values;

pub use answer::{answer_lines, draft_answer};
pub use drawn::Drawing;
pub use gathering::Looked;
pub use stamped::read_writes;
pub use tasks::{
    AskedVariant, CheckTask, ClientTask, DeleteTask, GetTask, PlayTask, PollTask, PutTask,
    ServeTask, ServeWords, StatusTask, Task, WritesTask,
};
pub use words::task_of;
pub use wrong_values::WrongValue;
