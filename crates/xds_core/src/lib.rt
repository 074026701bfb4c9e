// Everything that a replica decides, as one step: an event in, a reply or a refusal out. Below the step stand its streams: what becomes of
// a request, and what is sent. What happens, is answered and is held stands in xds_events, and is passed on here.
#![tactic(auto)]

pub mod laws;
pub mod replica;
pub mod stream;
mod talk;
mod variants;

pub use replica::Core;
pub use stream::Stream;
pub use xds_events::{Catalogues, Event, Marks, Record, Reply, Request};
