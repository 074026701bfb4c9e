// Messages, with spellings from `discovery.proto` and the proto3 JSON mapping.
use serde_json::Value;
use std::alloc::Global;
use std::test::Fail;
use xds_cases::cases::{Outcome, hold, told};
use xds_message::{DiscoveryRequest, DiscoveryResponse};
use xds_resource::Refusal;

// What is written of the request that the text spells.
struct RequestAgain;

impl Outcome for RequestAgain {
    fn of(alloc: Global, given: &str) -> Result<String, Fail> {
        Ok(told(alloc, rewritten(alloc, given.as_bytes()))?)
    }
}

fn rewritten(alloc: Global, bytes: &[u8]) -> Result<String, Refusal> {
    let request = DiscoveryRequest::read(alloc, bytes)?;
    let copy = request.try_copy(alloc);
    drop(request);
    let copy = copy?;
    let text = copy.write(alloc);
    drop(copy);
    text
}

#[test]
fn requests_are_read(rt: HostRuntime) -> Result<(), Fail> {
    let latin = rewritten(rt.alloc(), &[123, 34, 120, 34, 58, 34, 255, 34, 125]);
    assert_eq!(rt; latin.err(), Some(Refusal::NotJson));
    let stray = rewritten(rt.alloc(), &[123, 255, 125]);
    assert_eq!(rt; stray.err(), Some(Refusal::NotJson));
    hold::<RequestAgain, HostRuntime>(
        &rt,
        r#"{"versionInfo":"3-1","node":{"id":"envoy-1","cluster":"edge","metadata":{"weight":0.5}},
    "resourceNames":["a","b"],"typeUrl":"t","responseNonce":"7",
    "errorDetail":{"code":3,"message":"no name","details":[]}}
     => {"errorDetail":{"code":3,"message":"no name"},"node":{"cluster":"edge","id":"envoy-1"},
    "resourceNames":["a","b"],"responseNonce":"7","typeUrl":"t","versionInfo":"3-1"}
 { "version_info": "3-1", "node": {"id": "envoy-1", "cluster": "edge"},
     "resource_names": ["a", "b"], "type_url": "t", "response_nonce": "7",
     "error_detail": {"code": "3", "message": "no name"}}  => {"errorDetail":{"code":3,
    "message":"no name"},"node":{"cluster":"edge","id":"envoy-1"},"resourceNames":["a","b"],
    "responseNonce":"7","typeUrl":"t","versionInfo":"3-1"}
{"typeUrl":"t","type_url":[],"resourceNames":["a"],"resource_names":{},"errorDetail":{},
    "error_detail":5}
     => {"errorDetail":{},"resourceNames":["a"],"typeUrl":"t"}
{"typeUrl":null,"type_url":"t"} => {}
{"versionInfo":null,"node":null,"resourceNames":null,"typeUrl":null,"responseNonce":null,
    "errorDetail":null}
     => {}
{"node":{"id":null},"resourceNames":[]} => {"node":{}}
{"x":1.5} => {}
{"x":<[*126><]*126>} => {}
{"x":<[*127><]*127>} => 1 NotJson
<[*10000> => 1 NotJson
 => 1 NotJson
{"typeUrl":"t",} => 1 NotJson
{} {} => 1 NotJson
{"x":"\ud800"} => 1 NotJson
{"x":1e400} => 1 NotJson
[] => 7 BadMessage
null => 7 BadMessage
{"typeUrl":1} => 7 BadMessage
{"typeUrl":1,"type_url":"x"} => 7 BadMessage
{"resourceNames":"a"} => 7 BadMessage
{"resourceNames":["a",null]} => 7 BadMessage
{"node":"envoy-1"} => 7 BadMessage
{"node":{"id":7}} => 7 BadMessage
{"errorDetail":[]} => 7 BadMessage"#,
    )
}

#[test]
fn codes_are_read(rt: HostRuntime) -> Result<(), Fail> {
    hold::<RequestAgain, HostRuntime>(
        &rt,
        r#"{"errorDetail":{"code":null}} => {"errorDetail":{}}
{"error_detail":{"code":13}} => {"errorDetail":{"code":13}}
{"error_detail":{"code":"-7"}} => {"errorDetail":{"code":-7}}
{"error_detail":{"code":"007"}} => {"errorDetail":{"code":7}}
{"error_detail":{"code":"-0"}} => {"errorDetail":{}}
{"errorDetail":{"code":2147483647}} => {"errorDetail":{"code":2147483647}}
{"errorDetail":{"code":"-2147483648"}} => {"errorDetail":{"code":-2147483648}}
{"errorDetail":{"code":2147483648}} => 7 BadMessage
{"errorDetail":{"code":"2147483648"}} => 7 BadMessage
{"errorDetail":{"code":-2147483649}} => 7 BadMessage
{"errorDetail":{"code":"1e2"}} => 7 BadMessage
{"errorDetail":{"code":1e2}} => 7 BadMessage
{"errorDetail":{"code":1.0}} => 7 BadMessage
{"errorDetail":{"code":""}} => 7 BadMessage
{"errorDetail":{"code":"-"}} => 7 BadMessage
{"errorDetail":{"code":"+1"}} => 7 BadMessage
{"errorDetail":{"code":" 1"}} => 7 BadMessage
{"errorDetail":{"code":true}} => 7 BadMessage"#,
    )
}

// A response `1` of the type `t`, with the objects that stand in the text, apart by spaces.
struct Response;

impl Outcome for Response {
    fn of(alloc: Global, given: &str) -> Result<String, Fail> {
        let mut resources = Vec::new(alloc);
        for text in given.split_whitespace() {
            resources.push(Value::from_str(alloc, text)?)?;
        }
        let response = DiscoveryResponse {
            version_info: String::from_str(alloc, "1.0")?,
            resources,
            type_url: String::from_str(alloc, "t")?,
            nonce: String::from_str(alloc, "1")?,
        };
        Ok(response.try_copy(alloc)?.write(alloc)?)
    }
}

#[test]
fn responses_are_written(rt: HostRuntime) -> Result<(), Fail> {
    hold::<Response, HostRuntime>(
        &rt,
        r#" => {"nonce":"1","typeUrl":"t","versionInfo":"1.0"}
{"name":"a","@type":"t"}
     => {"nonce":"1","resources":[{"@type":"t","name":"a"}],"typeUrl":"t","versionInfo":"1.0"}
{} {"x":[1]} => {"nonce":"1","resources":[{},{"x":[1]}],"typeUrl":"t","versionInfo":"1.0"}"#,
    )
}

// What is written of the response that the text spells.
struct ResponseAgain;

impl Outcome for ResponseAgain {
    fn of(alloc: Global, given: &str) -> Result<String, Fail> {
        Ok(told(alloc, response_rewritten(alloc, given))?)
    }
}

fn response_rewritten(alloc: Global, text: &str) -> Result<String, Refusal> {
    DiscoveryResponse::read(alloc, text.as_bytes())?.write(alloc)
}

#[test]
fn reads_responses(rt: HostRuntime) -> Result<(), Fail> {
    hold::<ResponseAgain, HostRuntime>(
        &rt,
        r#"{"versionInfo":"1.2","resources":[{"x":null,"@type":"t"},{}],"canary":true,
    "typeUrl":"t","nonce":"1"}
     => {"nonce":"1","resources":[{"@type":"t","x":null},{}],"typeUrl":"t","versionInfo":"1.2"}
{"version_info":"1.2","resources":[{"@type":"t","x":null},{}],"type_url":"t","nonce":"1"}
     => {"nonce":"1","resources":[{"@type":"t","x":null},{}],"typeUrl":"t","versionInfo":"1.2"}
{"versionInfo":null,"version_info":"1","resources":null,"typeUrl":null,"nonce":null} => {}"#,
    )
}

#[test]
fn refuses_what_is_no_response(rt: HostRuntime) -> Result<(), Fail> {
    hold::<ResponseAgain, HostRuntime>(
        &rt,
        r#" => 1 NotJson
[] => 7 BadMessage
{"resources":{}} => 7 BadMessage
{"resources":[{},null]} => 7 BadMessage
{"resources":["a"]} => 7 BadMessage
{"version_info":1} => 7 BadMessage
{"nonce":1} => 7 BadMessage"#,
    )
}
