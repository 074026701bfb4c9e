// What ends a server.
use xds_notes::{End, Ending, Telling};
use xds_resource::Refusal;

// Neither changes nor events are told.
const NOTHING: Telling = Telling {
    changes: false,
    events: false,
    json: false,
};

#[test]
fn what_is_told_first_is_the_end(rt: HostRuntime) {
    let line = End::Line(3, Refusal::BadScript);
    let counted = Ending::after(rt.alloc(), Some(2), NOTHING);
    counted.stream_ended(&rt);
    counted.stream_ended(&rt);
    counted.end(&rt, line);
    assert!(rt; counted.wait(&rt) == End::Streams, "two streams have ended");
    let early = Ending::after(rt.alloc(), Some(2), NOTHING);
    early.stream_ended(&rt);
    early.end(&rt, line);
    early.stream_ended(&rt);
    assert!(rt;
        early.wait(&rt) == line,
        "a line came before the second stream"
    );
    let endless = Ending::after(rt.alloc(), None, NOTHING);
    endless.stream_ended(&rt);
    endless.end(&rt, End::Refused(Refusal::Device));
    endless.end(&rt, line);
    assert!(rt;
        endless.wait(&rt) == End::Refused(Refusal::Device),
        "streams aren't counted, and the line came behind"
    );
}
