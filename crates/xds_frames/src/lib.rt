// Frames, by which messages follow one another on a stream: how they are written, and how they are found again in
// bytes that come in pieces.
#![tactic(auto)]

pub mod counted;
pub mod decoder;
pub mod faulty;
pub mod frame;
pub mod gathering;
pub mod laws;
pub mod whole;
pub mod writing;

pub use counted::Counted;
pub use decoder::{Decoder, first_frame};
pub use faulty::Faulty;
pub use frame::{Frame, FrameKind};
pub use gathering::gather;
pub use whole::{read_whole, write_bytes, write_whole};
pub use writing::{frame_head, push_frame, write_frame};
