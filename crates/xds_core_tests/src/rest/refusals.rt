// Requests that are finished before a replica is asked.
use crate::rest::served::Alone;
use std::test::Fail;
use xds_cases::cases::hold;

#[test]
fn paths_come_before_methods_and_methods_before_bodies(rt: HostRuntime) -> Result<(), Fail> {
    hold::<Alone, HostRuntime>(
        &rt,
        r#"GET /v3/discovery:clusters => 405
PUT /v3/discovery:clusters {} => 405
post /v3/discovery:clusters {} => 405
POSTS /v3/discovery:secrets {} => 405
HEAD /v3/discovery:routes?x => 405
POST /v3/discovery:scoped {} => 404
POST /v3/discovery:cluster {} => 404
POST /v3/discovery:clusters/ {} => 404
POST /v3/discovery:Clusters {} => 404
POST v3/discovery:clusters {} => 404
POST /v2/discovery:clusters {} => 404
POST ?/v3/discovery:clusters {} => 404
POST  {} => 404
GET / => 404"#,
    )
}

#[test]
fn bodies_that_ask_for_nothing_of_the_type_are_refused(rt: HostRuntime) -> Result<(), Fail> {
    hold::<Alone, HostRuntime>(
        &rt,
        r#"POST /v3/discovery:clusters => 400 {"code":1,"name":"NotJson"}
POST /v3/discovery:clusters { => 400 {"code":1,"name":"NotJson"}
POST /v3/discovery:clusters [] => 400 {"code":7,"name":"BadMessage"}
POST /v3/discovery:clusters {"typeUrl":1} => 400 {"code":7,"name":"BadMessage"}
POST /v3/discovery:clusters {"resourceNames":["a",null]} => 400 {"code":7,"name":"BadMessage"}
POST /v3/discovery:clusters {"typeUrl":"RDS"} => 400 {"code":7,"name":"BadMessage"}
POST /v3/discovery:clusters {"typeUrl":"no.type"} => 400 {"code":7,"name":"BadMessage"}
POST /v3/discovery:routes {"typeUrl":"CDS","versionInfo":"1.0"}
     => 400 {"code":7,"name":"BadMessage"}
POST /v3/discovery:clusters {"typeUrl":""} => 200 {"typeUrl":"CDS","versionInfo":"1.0"}
POST /v3/discovery:clusters {"type_url":"CDS"} => 200 {"typeUrl":"CDS","versionInfo":"1.0"}
POST /v3/discovery:clusters {"x":1.5} => 200 {"typeUrl":"CDS","versionInfo":"1.0"}"#,
    )
}
