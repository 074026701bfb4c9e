// What is known of a server's replicas while they run, and told of it: recorded traces, causes of what is refused, and what
// stands round a node that sees to it; and how a server ends.
#![tactic(auto)]

pub mod instrumented;
pub mod journal_weight;
pub mod observer;
pub mod recorder;
pub mod recording;
pub mod reel;
pub mod response;
pub mod segment_sink;
pub mod tapes;
pub mod turns;
mod weights;

pub use instrumented::Instrumented;
pub use journal_weight::{JournalWeight, MOST_BYTES};
pub use observer::Observer;
pub use recorder::{Recorder, Tape};
pub use recording::{Piece, Recording};
pub use reel::{Reel, Seals, UNSEALED};
pub use response::response_at;
pub use segment_sink::SegmentSink;
pub use tapes::{
    PRIVATE, TapeFault, Unrecordable, recorded_text, recordings_text, running_text, tape_line,
    tapes_in,
};
pub use turns::Turns;
