// Many streams, open at once.
use crate::replies::number_text;
use crate::script::{Actor, play_line, play_on};
use std::alloc::Global;
use std::test::Fail;
use xds_core::Core;

const STREAMS: u64 = 10000;

// What happens to each stream, a step a line, with an empty line between two stages. The number of
// the stream stands for `#`.
const STAGES: &str = r##"open => #

sotw # {"typeUrl":"CDS"} => taken
poll # => {"nonce":"1","resources":[{"@type":"CDS","name":"a"}],"typeUrl":"CDS","versionInfo":"1.1"}

owed # => yes
sotw # {"responseNonce":"1","typeUrl":"CDS"} => taken
owed # => no

close # => closed
due # => none"##;

// What was before the streams.
const BEFORE: &str = r#"put {"@type":"CDS","name":"a"} => 1-1"#;

// Each stage is over for all streams before the next begins.
fn pass<A: Actor>(alloc: Global) -> Result<(), Fail> {
    let mut actor = A::begin(alloc);
    play_on(alloc, &mut actor, BEFORE)?;
    for stage in STAGES.split("\n\n") {
        pass_stage(alloc, &mut actor, stage)?;
    }
    Ok(())
}

fn pass_stage<A: Actor>(alloc: Global, actor: &mut A, stage: &str) -> Result<(), Fail> {
    for number in 1..=STREAMS {
        pass_one(alloc, actor, stage, number)?;
    }
    Ok(())
}

fn pass_one<A: Actor>(alloc: Global, actor: &mut A, stage: &str, number: u64) -> Result<(), Fail> {
    let number = number_text(alloc, u128::from(number))?;
    let stage = stage.replace(alloc, "#", number.as_str())?;
    for step in stage.as_str().lines() {
        play_line(alloc, actor, step)?;
    }
    Ok(())
}

#[test]
fn ten_thousand_streams(rt: HostRuntime) -> Result<(), Fail> {
    pass::<Core>(rt.alloc())
}
