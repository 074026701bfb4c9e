// A poll for which no memory is found. With ample memory it is answered at once; `rt try --test
// --fail-alloc N` refuses the N-th allocation. The poll that comes again is answered as if the
// first had not been.
use crate::rest::served::Served;
use std::alloc::Global;
use std::test::Fail;
use xds_cases::scripts::Script;
use xds_resource::{Refusal, TypeName};

// What a script answers to a poll of all clusters, and whether it was refused for want of memory
// before.
fn polled<S: Script>(alloc: Global, script: &mut S) -> Result<(String, bool), Refusal> {
    match script.step(alloc, "POST", "/v3/discovery:clusters {}") {
        Err(Refusal::OutOfMemory) => {
            let again = script.step(alloc, "POST", "/v3/discovery:clusters {}")?;
            Ok((again, true))
        }
        Err(refusal) => Err(refusal),
        Ok(reply) => Ok((reply, false)),
    }
}

// Whether the poll was refused at first.
fn comes_again<S: Script>(alloc: Global) -> Result<bool, Fail> {
    let url = TypeName::Cluster.url();
    let body = format!(in alloc; "{{\"@type\":\"{url}\",\"name\":\"a\"}}")?;
    let mut script = S::begin(alloc);
    script.step(alloc, "put", body.as_str())?;
    let (reply, refused) = polled(alloc, &mut script)?;
    let wanted = format!(in alloc;
        "200 {{\"resources\":[{body}],\"typeUrl\":\"{url}\",\"versionInfo\":\"1.1\"}}"
    )?;
    if reply.as_str() == wanted.as_str() {
        return Ok(refused);
    }
    Err(Fail::new(format_args!("{reply} and not {wanted}")))
}

#[test]
fn a_poll_without_memory(rt: HostRuntime) -> Result<(), Fail> {
    if comes_again::<Served>(rt.alloc())? {
        println!(rt; "refused, and went on")?;
    }
    Ok(())
}
