// Spellings of the incremental variant's messages, from `discovery.proto` and the proto3 JSON
// mapping.
use std::alloc::Global;
use std::test::Fail;
use xds_cases::cases::{Outcome, hold, told};
use xds_message::{DeltaDiscoveryRequest, DeltaDiscoveryResponse};
use xds_resource::Refusal;

// What is written of the request that the text spells.
struct RequestAgain;

impl Outcome for RequestAgain {
    fn of(alloc: Global, given: &str) -> Result<String, Fail> {
        Ok(told(alloc, rewritten(alloc, given))?)
    }
}

fn rewritten(alloc: Global, text: &str) -> Result<String, Refusal> {
    let request = DeltaDiscoveryRequest::read(alloc, text.as_bytes())?;
    let copy = request.try_copy(alloc);
    drop(request);
    let copy = copy?;
    let text = copy.write(alloc);
    drop(copy);
    text
}

#[test]
fn reads_requests(rt: HostRuntime) -> Result<(), Fail> {
    hold::<RequestAgain, HostRuntime>(
        &rt,
        r#"{"node":{"id":"envoy-1"},"typeUrl":"t","resourceNamesSubscribe":["a","*"],
    "resourceNamesUnsubscribe":["c"],"initialResourceVersions":{"b":"","a":"1-1"},
    "responseNonce":"7","errorDetail":{"code":3}}
     => {"errorDetail":{"code":3},"initialResourceVersions":{"a":"1-1","b":""},
    "node":{"id":"envoy-1"},"resourceNamesSubscribe":["a","*"],"resourceNamesUnsubscribe":["c"],
    "responseNonce":"7","typeUrl":"t"}
{"node":{"id":"envoy-1"},"type_url":"t","resource_names_subscribe":["a","*"],
    "resource_names_unsubscribe":["c"],"initial_resource_versions":{"a":"1-1","b":""},
    "response_nonce":"7","error_detail":{"code":"3"},"resource_locators_subscribe":[{"name":"x"}]}
     => {"errorDetail":{"code":3},"initialResourceVersions":{"a":"1-1","b":""},
    "node":{"id":"envoy-1"},"resourceNamesSubscribe":["a","*"],"resourceNamesUnsubscribe":["c"],
    "responseNonce":"7","typeUrl":"t"}
{"initialResourceVersions":{"a":"1-1"},"initial_resource_versions":7,"resourceNamesSubscribe":null,
    "resource_names_subscribe":["a"]}
     => {"initialResourceVersions":{"a":"1-1"}}
{"initialResourceVersions":{"é\"":"\n"}} => {"initialResourceVersions":{"é\"":"\n"}}
{"node":null,"typeUrl":null,"resourceNamesSubscribe":[],"resourceNamesUnsubscribe":null,
    "initialResourceVersions":{},"responseNonce":null,"errorDetail":null}
     => {}
{"initialResourceVersions":null} => {}"#,
    )
}

#[test]
fn refuses_what_is_no_request(rt: HostRuntime) -> Result<(), Fail> {
    hold::<RequestAgain, HostRuntime>(
        &rt,
        r#"[] => 7 BadMessage
{"initialResourceVersions":[]} => 7 BadMessage
{"initialResourceVersions":{"a":"1-1","b":null}} => 7 BadMessage
{"initial_resource_versions":{"a":1}} => 7 BadMessage
{"resourceNamesSubscribe":"a"} => 7 BadMessage
{"resourceNamesUnsubscribe":[null]} => 7 BadMessage
{"responseNonce":7} => 7 BadMessage
{ => 1 NotJson"#,
    )
}

// What is written of the response that the text spells.
struct ResponseAgain;

impl Outcome for ResponseAgain {
    fn of(alloc: Global, given: &str) -> Result<String, Fail> {
        Ok(told(alloc, response_rewritten(alloc, given))?)
    }
}

fn response_rewritten(alloc: Global, text: &str) -> Result<String, Refusal> {
    let response = DeltaDiscoveryResponse::read(alloc, text.as_bytes())?;
    response.try_copy(alloc)?.write(alloc)
}

#[test]
fn reads_responses(rt: HostRuntime) -> Result<(), Fail> {
    hold::<ResponseAgain, HostRuntime>(
        &rt,
        r#"{"systemVersionInfo":"1.2",
    "resources":[{"version":"1-1","name":"a","resource":{"x":1,"@type":"t"},"ttl":"1.5s"}],
    "typeUrl":"t","nonce":"1","removedResources":["b"],"controlPlane":{}}
     => {"nonce":"1","removedResources":["b"],
    "resources":[{"name":"a","resource":{"@type":"t","x":1},"version":"1-1"}],
    "systemVersionInfo":"1.2","typeUrl":"t"}
{"system_version_info":"1.2",
    "resources":[{"version":"1-1","name":"a","resource":{"@type":"t","x":1}}],"type_url":"t",
    "nonce":"1","removed_resources":["b"]}
     => {"nonce":"1","removedResources":["b"],
    "resources":[{"name":"a","resource":{"@type":"t","x":1},"version":"1-1"}],
    "systemVersionInfo":"1.2","typeUrl":"t"}
{"resources":[{"resource":{}}]} => {"resources":[{"resource":{}}]}
{"systemVersionInfo":null,"resources":null,"typeUrl":null,"nonce":null,"removedResources":null,
    "removed_resources":["b"]}
     => {}"#,
    )
}

#[test]
fn refuses_what_is_no_response(rt: HostRuntime) -> Result<(), Fail> {
    hold::<ResponseAgain, HostRuntime>(
        &rt,
        r#"null => 7 BadMessage
{"resources":{}} => 7 BadMessage
{"resources":[{"name":"a","version":"1-1"}]} => 7 BadMessage
{"resources":[{"name":"a","version":"1-1","resource":null}]} => 7 BadMessage
{"resources":[{"name":"a","version":"1-1","resource":[]}]} => 7 BadMessage
{"resources":[{"resource":{},"version":1}]} => 7 BadMessage
{"resources":[{"resource":{}},null]} => 7 BadMessage
{"removedResources":[1]} => 7 BadMessage"#,
    )
}
