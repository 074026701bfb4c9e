// How the journal of a node is filled.
use crate::calls::refused;
use std::sync::Wait;
use xds_core::Event;
use xds_node::Host;
use xds_resource::Refusal;

// No stream has this number.
const NO_STREAM: u64 = 0;

/// Asks so often whether a stream that isn't open is owed something, which leaves as many records,
/// unless the journal is full before.
pub(crate) fn fill<A: Host, R: Wait>(
    rt: &R,
    node: &A,
    seat: &mut A::Seat,
    records: usize,
) -> Result<(), Refusal> {
    for _ in 0..records {
        match refused(node.call(rt, seat, Event::Owes(NO_STREAM, None))) {
            Err(Refusal::NoStream) => {}
            answer => return answer,
        }
    }
    Ok(())
}
