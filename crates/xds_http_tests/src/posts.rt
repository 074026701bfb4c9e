// Requests over a socket, each over a connection of its own.
use crate::server::{answers, started, written};
use std::net::SocketAddr;
use std::test::Fail;
use xds_cases::cases::{unfolded, written_out};

// Sends each request, and compares its reply with what is wanted. A line that begins with four
// spaces goes on with the line before it.
pub(crate) fn hold(rt: &HostRuntime, server: SocketAddr, cases: &str) -> Result<(), Fail> {
    let cases = unfolded(rt.alloc(), cases)?;
    for case in cases.as_str().lines() {
        hold_one(rt, server, case)?;
    }
    Ok(())
}

fn hold_one(rt: &HostRuntime, server: SocketAddr, case: &str) -> Result<(), Fail> {
    let case = written_out(rt.alloc(), case)?;
    let (given, wanted) = case.as_str().split_once(" => ").ok_or("no outcome")?;
    let sent = written(rt.alloc(), given, true)?;
    answers(rt, server, sent.as_str().as_bytes(), wanted, given)
}

// Replica 1 holds the cluster `a`, put once.
const POSTS: &str = r#"POST /v3/discovery:clusters {}
     => 200 {"resources":[{"@type":"CDS","name":"a"}],"typeUrl":"CDS","versionInfo":"1.1"}
POST /v3/discovery:clusters {"versionInfo":"1.1"} => 304
POST /v3/discovery:clusters {"resourceNames":["a"],"versionInfo":"1.1"}
     => 200 {"resources":[{"@type":"CDS","name":"a"}],"typeUrl":"CDS","versionInfo":"1.1.named"}
POST /v3/discovery:clusters {"resourceNames":["*"],"versionInfo":"1.1"} => 304
POST /v3/discovery:clusters {"resourceNames":["*","a"],"versionInfo":"1.1"} => 304
POST /v3/discovery:clusters {"node":{"cluster":"g1","id":"1"},"versionInfo":"1.1@g1"} => 304
GET /v3/discovery:clusters => 405
PUT /v3/discovery:clusters {} => 405
HEAD /v3/discovery:clusters => 405
POST /v3/discovery:scoped {} => 404
GET / => 404
POST /v3/discovery:clusters?x=1 {}
     => 200 {"resources":[{"@type":"CDS","name":"a"}],"typeUrl":"CDS","versionInfo":"1.1"}
POST /v3/discovery:clusters => 400 {"code":1,"name":"NotJson"}
POST /v3/discovery:clusters [] => 400 {"code":7,"name":"BadMessage"}
POST /v3/discovery:clusters {"typeUrl":"RDS"} => 400 {"code":7,"name":"BadMessage"}
POST /v3/discovery:routes {"resourceNames":["q"]} => 200 {"typeUrl":"RDS","versionInfo":"1.0.named"}
POST /v3/discovery:secrets {} => 200 {"typeUrl":"SDS","versionInfo":"1.0.named"}"#;

#[test]
fn posts_are_answered_over_a_socket(rt: HostRuntime) -> Result<(), Fail> {
    let server = started(&rt)?;
    hold(&rt, server, POSTS)
}
