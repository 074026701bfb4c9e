// Requests with bodies as long as may be, and longer.
use crate::rest::served::{Served, first_answer};
use crate::script::parted;
use std::alloc::Global;
use std::test::Fail;
use xds_cases::cases::{Outcome, hold, told};
use xds_cases::scripts::Script;
use xds_resource::Refusal;

// What a replica replies to `METHOD SIZE PATH`: a request whose body is as many spaces.
struct OfSize;

// The path, a space, and the body.
fn spaced(alloc: Global, path: &str, size: usize) -> Result<String, Refusal> {
    let mut text = String::from_str(alloc, path)?;
    text.push(' ')?;
    for _ in 0..size {
        text.push(' ')?;
    }
    Ok(text)
}

fn asked<S: Script>(alloc: Global, given: &str) -> Result<String, Refusal> {
    let (method, rest) = parted(given);
    let (size, path) = parted(rest);
    let size = size.parse::<usize>().ok().ok_or(Refusal::BadScript)?;
    let rest = spaced(alloc, path, size)?;
    first_answer::<S>(alloc, method, rest.as_str())
}

impl Outcome for OfSize {
    fn of(alloc: Global, given: &str) -> Result<String, Fail> {
        Ok(told(alloc, asked::<Served>(alloc, given))?)
    }
}

#[test]
fn a_body_may_have_this_many_bytes(rt: HostRuntime) -> Result<(), Fail> {
    hold::<OfSize, HostRuntime>(
        &rt,
        r#"POST 4194304 /v3/discovery:clusters => 400 {"code":1,"name":"NotJson"}
POST 4194305 /v3/discovery:clusters => 413
GET 4194305 /v3/discovery:clusters => 405
POST 4194305 /v3/discovery:cluster => 404"#,
    )
}
