// Changes of what a server's replicas hold, as lines say them: read, kept in parts, handed on, loaded before anybody is answered, and what
// is asked of what they hold.
#![tactic(auto)]

pub mod change;
pub mod choice;
pub mod contents;
pub mod given;
pub mod held_line;
pub mod input;
pub mod keeping;
pub mod loading;
pub mod made;
pub mod marking;
pub mod order;
pub mod ready_line;
pub mod said_lines;
pub mod wanting;
pub mod write_lines;

pub use change::{Change, MAX_LINE, read_change};
pub use held_line::{HeldLine, TakenPiece};
pub use input::{Hands, Replicas, take_input, take_lines};
pub use keeping::{Keeps, keep_input, keep_lines};
pub use loading::{Loader, load, number_at};
pub use marking::{marks_text, read_marks};
pub use order::Order;
pub use said_lines::{Kept, SaidLine};
pub use wanting::{MAX_WAIT, WantedWrites, read_wanted};
