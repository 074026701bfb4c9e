// A replica that many threads share: one lock, one journal, the seats that were told what stands in it, and whom an event wakes.

pub mod asking;
pub mod calls;
pub mod concern;
pub mod concerns;
pub mod desk;
pub mod gathered;
pub mod history;
pub mod holding;
pub mod line;
pub mod nodes;
pub mod prints;
pub mod rule;
pub mod seat;
pub mod segment;
pub mod shared;
pub mod sleepers;
pub mod token;
pub mod twice;
pub mod wakes;
