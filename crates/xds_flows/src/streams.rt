// The two halves of a stream, from the bytes of its requests to those of its responses.

pub mod alone;
pub mod gating;
pub mod known;
pub mod poll_reader;
pub mod poll_writer;
pub mod reader;
pub mod reading;
pub mod running;
pub mod sending;
pub mod ways;
pub mod writer;
