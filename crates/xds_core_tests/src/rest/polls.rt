// What a replica replies to polls: all that is asked for, or that nothing changed.
use crate::rest::served::Served;
use std::test::Fail;
use xds_cases::scripts::follow;

// rule: not-modified
#[test]
fn all_is_told_unless_the_version_is_the_present_one(rt: HostRuntime) -> Result<(), Fail> {
    follow::<Served, HostRuntime>(
        &rt,
        r#"put {"@type":"CDS","name":"a"} => ok
POST /v3/discovery:clusters {}
     => 200 {"resources":[{"@type":"CDS","name":"a"}],"typeUrl":"CDS","versionInfo":"1.1"}

put {"@type":"CDS","name":"a"} => ok
POST /v3/discovery:clusters {"versionInfo":"1.1"} => 304

put {"@type":"CDS","name":"a"} => ok
POST /v3/discovery:clusters {"version_info":"1.1"} => 304

put {"@type":"CDS","name":"a"} => ok
POST /v3/discovery:clusters {"resourceNames":["*"],"versionInfo":"1.1"} => 304

put {"@type":"CDS","name":"a"} => ok
POST /v3/discovery:clusters {"resourceNames":["*","a"],"versionInfo":"1.1"} => 304

put {"@type":"CDS","name":"a"} => ok
POST /v3/discovery:clusters {"errorDetail":{"code":3},"responseNonce":"9",
    "versionInfo":"1.1"} => 304

put {"@type":"CDS","name":"a"} => ok
POST /v3/discovery:clusters {"versionInfo":"1.2"}
     => 200 {"resources":[{"@type":"CDS","name":"a"}],"typeUrl":"CDS","versionInfo":"1.1"}

put {"@type":"CDS","name":"a"} => ok
POST /v3/discovery:clusters {"versionInfo":"2.1"}
     => 200 {"resources":[{"@type":"CDS","name":"a"}],"typeUrl":"CDS","versionInfo":"1.1"}

put {"@type":"CDS","name":"a"} => ok
POST /v3/discovery:clusters {"versionInfo":"1.1 "}
     => 200 {"resources":[{"@type":"CDS","name":"a"}],"typeUrl":"CDS","versionInfo":"1.1"}

put {"@type":"CDS","name":"a"} => ok
POST /v3/discovery:clusters?x=1 {}
     => 200 {"resources":[{"@type":"CDS","name":"a"}],"typeUrl":"CDS","versionInfo":"1.1"}

put {"@type":"CDS","name":"a"} => ok
POST /v3/discovery:clusters?versionInfo=1.1?x {"versionInfo":"1.1"} => 304

put {"@type":"CDS","name":"a"} => ok
POST /v3/discovery:clusters? {"typeUrl":"CDS"}
     => 200 {"resources":[{"@type":"CDS","name":"a"}],"typeUrl":"CDS","versionInfo":"1.1"}

POST /v3/discovery:listeners {} => 200 {"typeUrl":"LDS","versionInfo":"1.0"}
POST /v3/discovery:listeners {"versionInfo":"1.0"} => 304

put {"@type":"LDS","name":"b"} => ok
put {"y":1,"@type":"LDS","name":"a"} => ok
POST /v3/discovery:listeners {"versionInfo":"1.1"}
     => 200 {"resources":[{"@type":"LDS","name":"a","y":1},{"@type":"LDS","name":"b"}],
    "typeUrl":"LDS","versionInfo":"1.2"}
POST /v3/discovery:listeners {"versionInfo":"1.2"} => 304
delete listener b => ok
POST /v3/discovery:listeners {"versionInfo":"1.2"}
     => 200 {"resources":[{"@type":"LDS","name":"a","y":1}],"typeUrl":"LDS","versionInfo":"1.3"}
POST /v3/discovery:listeners {"versionInfo":"1.3"} => 304

put {"@type":"RDS","name":"q"} => ok
POST /v3/discovery:clusters {"versionInfo":"1.0"} => 304"#,
    )
}

// rule: not-modified
#[test]
fn who_asks_by_name_is_told_all_of_it_each_time(rt: HostRuntime) -> Result<(), Fail> {
    follow::<Served, HostRuntime>(
        &rt,
        r#"put {"@type":"CDS","name":"a"} => ok
POST /v3/discovery:clusters {"resourceNames":["a"],"versionInfo":"1.1"}
     => 200 {"resources":[{"@type":"CDS","name":"a"}],"typeUrl":"CDS","versionInfo":"1.1.named"}

put {"@type":"CDS","name":"a"} => ok
POST /v3/discovery:clusters {"resourceNames":["a"],"versionInfo":"1.1.named"}
     => 200 {"resources":[{"@type":"CDS","name":"a"}],"typeUrl":"CDS","versionInfo":"1.1.named"}

put {"@type":"CDS","name":"a"} => ok
POST /v3/discovery:clusters {"resourceNames":["z"]}
     => 200 {"typeUrl":"CDS","versionInfo":"1.1.named"}

put {"@type":"CDS","name":"b"} => ok
put {"@type":"CDS","name":"c"} => ok
put {"@type":"CDS","name":"a"} => ok
POST /v3/discovery:clusters {"resourceNames":["b","x","a","b"]}
     => 200 {"resources":[{"@type":"CDS","name":"a"},{"@type":"CDS","name":"b"}],"typeUrl":"CDS",
    "versionInfo":"1.3.named"}

POST /v3/discovery:routes {} => 200 {"typeUrl":"RDS","versionInfo":"1.0.named"}

POST /v3/discovery:routes {"resourceNames":["q"]} => 200 {"typeUrl":"RDS","versionInfo":"1.0.named"}

put {"@type":"RDS","name":"q"} => ok
POST /v3/discovery:routes {} => 200 {"typeUrl":"RDS","versionInfo":"1.1.named"}
POST /v3/discovery:routes {"resourceNames":["*"]} => 200 {"typeUrl":"RDS","versionInfo":"1.1.named"}
POST /v3/discovery:routes {"resourceNames":["q"],"versionInfo":"1.1.named"}
     => 200 {"resources":[{"@type":"RDS","name":"q"}],"typeUrl":"RDS","versionInfo":"1.1.named"}

POST /v3/discovery:endpoints {"resource_names":["e"],"version_info":"1.0"}
     => 200 {"typeUrl":"EDS","versionInfo":"1.0.named"}

put {"@type":"EDS","clusterName":"e"} => ok
put {"@type":"EDS","cluster_name":"f"} => ok
POST /v3/discovery:endpoints {"resourceNames":["f","e"],"versionInfo":"1.2"}
     => 200 {"resources":[{"@type":"EDS","clusterName":"e"},{"@type":"EDS","cluster_name":"f"}],
    "typeUrl":"EDS","versionInfo":"1.2.named"}

POST /v3/discovery:secrets {} => 200 {"typeUrl":"SDS","versionInfo":"1.0.named"}

put {"@type":"SDS","name":"s"} => ok
POST /v3/discovery:secrets {} => 200 {"typeUrl":"SDS","versionInfo":"1.1.named"}
POST /v3/discovery:secrets {"resourceNames":["s"]}
     => 200 {"resources":[{"@type":"SDS","name":"s"}],"typeUrl":"SDS","versionInfo":"1.1.named"}"#,
    )
}

// rule: not-modified
#[test]
fn the_star_of_a_cluster_has_its_own_versions(rt: HostRuntime) -> Result<(), Fail> {
    follow::<Served, HostRuntime>(
        &rt,
        r#"put {"@type":"CDS","name":"a"} => ok
POST /v3/discovery:clusters {"node":{"cluster":"g1"}}
     => 200 {"resources":[{"@type":"CDS","name":"a"}],"typeUrl":"CDS","versionInfo":"1.1@g1"}

put {"@type":"CDS","name":"a"} => ok
POST /v3/discovery:clusters {"node":{"cluster":"g1"},"versionInfo":"1.1@g1"} => 304

put {"@type":"CDS","name":"a"} => ok
POST /v3/discovery:clusters {"node":{"cluster":"g1"},"versionInfo":"1.1"}
     => 200 {"resources":[{"@type":"CDS","name":"a"}],"typeUrl":"CDS","versionInfo":"1.1@g1"}

put {"@type":"CDS","name":"a"} => ok
POST /v3/discovery:clusters {"node":{"cluster":"","id":"7"},"versionInfo":"1.1"} => 304

putin g1 {"@type":"CDS","name":"a"} => ok
put {"@type":"CDS","name":"b"} => ok
putin g2 {"@type":"CDS","name":"c"} => ok
POST /v3/discovery:clusters {"node":{"cluster":"g1"},"versionInfo":"1.3@g1"} => 304

putin g1 {"@type":"CDS","name":"a"} => ok
put {"@type":"CDS","name":"b"} => ok
putin g2 {"@type":"CDS","name":"c"} => ok
POST /v3/discovery:clusters {"node":{"cluster":"g2"},"versionInfo":"1.3@g1"}
     => 200 {"resources":[{"@type":"CDS","name":"b"},{"@type":"CDS","name":"c"}],"typeUrl":"CDS",
    "versionInfo":"1.3@g2"}

putin g1 {"@type":"CDS","name":"a"} => ok
put {"@type":"CDS","name":"b"} => ok
putin g2 {"@type":"CDS","name":"c"} => ok
POST /v3/discovery:clusters {"versionInfo":"1.3@g1"}
     => 200 {"resources":[{"@type":"CDS","name":"b"}],"typeUrl":"CDS","versionInfo":"1.3"}

putin g1 {"@type":"CDS","name":"a"} => ok
put {"@type":"CDS","name":"b"} => ok
putin g2 {"@type":"CDS","name":"c"} => ok
POST /v3/discovery:clusters {"node":{"cluster":"g1"},"resourceNames":["*","c"]}
     => 200 {"resources":[{"@type":"CDS","name":"a"},{"@type":"CDS","name":"b"},
    {"@type":"CDS","name":"c"}],"typeUrl":"CDS","versionInfo":"1.3@g1"}

putin g1,g2 {"@type":"CDS","name":"a"} => ok
putin g2 {"@type":"CDS","name":"c"} => ok
POST /v3/discovery:clusters {"node":{"cluster":"g1"},"resourceNames":["c"]}
     => 200 {"resources":[{"@type":"CDS","name":"c"}],"typeUrl":"CDS","versionInfo":"1.2.named"}"#,
    )
}
