// A stream that finds no memory. `bench/hand/fail_each.py` runs this test with each allocation failing
// in turn: where one fails while the stream is served, a beginning of the responses was written,
// and the stream is closed.
use crate::ran::{Ends, Ran, serve, written_bytes};
use std::alloc::Global;
use std::test::Fail;
use xds_core::{Core, Event};
use xds_resource::{AnyResource, Groups, Refusal};

const REQUESTS: &str = r#"0000004201 {"typeUrl":"CDS"}
0000004401 {"typeUrl":"LDS"}"#;

const RESPONSES: &str =
    r#"000000bb02 {"nonce":"1","resources":[{"@type":"CDS","name":"a"}],"typeUrl":"CDS",
    "versionInfo":"1.1"}
0000006402 {"nonce":"2","typeUrl":"LDS","versionInfo":"1.0"}"#;

// A replica takes a cluster.
fn put_a_cluster(alloc: Global, core: &mut Core) -> Result<(), Fail> {
    let text = written_bytes(alloc, r#" {"@type":"CDS","name":"a"}"#)?;
    let text = String::from_utf8(text).ok().ok_or("no UTF-8")?;
    let cluster = AnyResource::parse(alloc, text.as_str())?;
    drop(core.step(Event::Put(cluster, Groups::none()))?);
    Ok(())
}

// Whether the stream was refused memory. It is closed, and a beginning of the responses was
// written; all, where it wasn't.
fn is_refused(ran: Result<Ran, Refusal>, written: &[u8], responses: &[u8]) -> Result<bool, Fail> {
    let ran = ran?;
    let refused = ran.answer == Err(Refusal::OutOfMemory);
    let whole = written.len() == responses.len();
    if !ran.closed || !responses.starts_with(written) {
        return Err("it is open, or other responses are written".into());
    }
    if !refused && (ran.answer != Ok(()) || !whole) {
        return Err("a response is left out".into());
    }
    Ok(refused)
}

fn is_cut_short(alloc: Global, core: &mut Core) -> Result<bool, Fail> {
    let input = written_bytes(alloc, REQUESTS)?;
    let responses = written_bytes(alloc, RESPONSES)?;
    // (what is written takes no memory meanwhile)
    let taken = Vec::with_capacity(alloc, responses.len())?;
    put_a_cluster(alloc, core)?;
    let mut ends = Ends::new(input.as_slice(), 50, taken);
    let ran = serve(alloc, core, &mut ends);
    is_refused(ran, ends.written(), responses.as_slice())
}

fn is_served(alloc: Global) -> Result<bool, Fail> {
    let mut core = Core::new(alloc, 1);
    let short = is_cut_short(alloc, &mut core);
    drop(core);
    short
}

// rule: refused-event
#[test]
fn a_stream_without_memory(rt: HostRuntime) -> Result<(), Fail> {
    if is_served(rt.alloc())? {
        println!(rt; "refused, and went on")?;
    }
    Ok(())
}
