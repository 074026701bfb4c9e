// What a request asks a replica for, and the reply by what that answers.
use crate::rest::served::{Alone, Served};
use std::test::Fail;
use xds_cases::cases::hold;
use xds_cases::scripts::follow;

#[test]
fn a_request_asks_for_its_list(rt: HostRuntime) -> Result<(), Fail> {
    hold::<Alone, HostRuntime>(
        &rt,
        r#"ask POST /v3/discovery:clusters {} => cluster [] () ()
ask POST /v3/discovery:endpoints {"node":{"cluster":"g1","id":"7"},"resourceNames":["f","e","f"],
    "typeUrl":"EDS","versionInfo":"1.1.named"} => endpoint [f,e,f] (1.1.named) (g1)
ask POST /v3/discovery:listeners?x {"node":{"id":"7"},"resource_names":["*"],"responseNonce":"9"}
     => listener [*] () ()
ask POST /v3/discovery:routes {"version_info":"v"} => route [] (v) ()
ask POST /v3/discovery:secrets {"node":{"cluster":"g2"}} => secret [] () (g2)
ask GET /v3/discovery:secrets {} => 405
ask POST /v3/discovery:secret {} => 404
ask POST /v3/discovery:secrets {"typeUrl":"CDS"} => 400 {"code":7,"name":"BadMessage"}"#,
    )
}

#[test]
fn replies_are_made_of_what_is_answered(rt: HostRuntime) -> Result<(), Fail> {
    follow::<Served, HostRuntime>(
        &rt,
        r#"put {"@type":"CDS","name":"a"} => ok
poll cluster 1.0 => 200 {"resources":[{"@type":"CDS","name":"a"}],"typeUrl":"CDS",
    "versionInfo":"1.1"}
poll cluster 1.1 => 304
poll route 1.0 => 200 {"typeUrl":"RDS","versionInfo":"1.0.named"}

snapshot => 500"#,
    )
}
