// What is told of lines that are refused: what they are to be, and the line.
use std::alloc::Global;
use std::test::Fail;
use xds_cases::cases::{Outcome, hold, told};
use xds_causes::{Message, message_cause, plain_line, script_cause, trace_cause, unknown_type};
use xds_resource::Refusal;

struct Told;

impl Outcome for Told {
    fn of(alloc: Global, given: &str) -> Result<String, Fail> {
        let (word, line) = given.split_once(' ').ok_or("a case has no line")?;
        Ok(told(alloc, cause_in(alloc, word, line))?)
    }
}

fn cause_in(alloc: Global, word: &str, line: &str) -> Result<String, Refusal> {
    match word {
        "trace" => trace_cause(alloc, line.as_bytes()),
        "script" => script_cause(alloc, line.as_bytes()),
        "type" => unknown_type(alloc, line),
        "request" => message_cause(alloc, line.as_bytes(), Message::Request),
        _ => message_cause(alloc, line.as_bytes(), Message::Write),
    }
}

#[test]
fn the_field_of_a_write_that_is_wrong_is_told(rt: HostRuntime) -> Result<(), Fail> {
    hold::<Told, HostRuntime>(
        &rt,
        r#"write {"typeUrl":"CDS","name":"a","counter":0,"writer":1}
     => "counter" isn't a number from 1 to 9223372036854775807
write {"typeUrl":"CDS","name":"a","counter":"1","writer":1}
     => "counter" isn't a number from 1 to 9223372036854775807
write {"typeUrl":"CDS","name":"a","writer":1}
     => there is no "counter": a number from 1 to 9223372036854775807
write {"typeUrl":"CDS","name":"a","counter":1,"writer":65536}
     => "writer" isn't a number from 1 to 65535
write {"typeUrl":"CDS","name":"","counter":1,"writer":1}
     => "name" isn't the name of a resource: a text, not empty and not *
write {"typeUrl":7,"name":"a","counter":1,"writer":1} => "typeUrl" isn't a text
write {"typeUrl":"CDS","name":"a","counter":1,"writer":1,"groups":[1]}
     => "groups" isn't a list of texts
write {"typeUrl":"CDS","name":"a","counter":1,"writer":1,"groups":["g"]}
     => "groups" are those of a write without "body", which has none
write {"typeUrl":"CDS","name":"a","counter":1,"writer":1,"body":{"@type":"CDS","name":"b"}}
     => "body" has another name than "name", or "groups" can't be
write {"typeUrl":"CDS","name":"a","counter":1,"writer":1,"body":{"@type":"RDS","name":"a"}}
     => "@type" of "body" is "RDS", and not "typeUrl"
write {"typeUrl":"CDS","name":"a","counter":1,"writer":1} => 
write {"typeUrl":"CDSr","name":"a","counter":1,"writer":1}
     => typeUrl "CDSr" is none that is known; did you mean "CDS"?
write [] => no JSON object
write {"typeUrl" => not JSON at byte 10"#,
    )
}

#[test]
fn the_field_of_a_request_that_is_wrong_is_told(rt: HostRuntime) -> Result<(), Fail> {
    hold::<Told, HostRuntime>(
        &rt,
        r#"request {"typeUrl":"CDS","node":"n"} => "node" isn't an object with the texts "id" and "cluster"
request {"typeUrl":"CDS","node":{"id":1}} => "node" isn't an object with the texts "id" and "cluster"
request {"typeUrl":"CDS","resource_names":"a"} => "resourceNames" isn't a list of texts
request {} => there is no "typeUrl": the type of the resources that are asked for
request {"typeUrl":"type.googleapis.com/envoy.api.v2.Cluster"}
     => typeUrl "type.googleapis.com/envoy.api.v2.Cluster" is none that is known; did you mean "CDS"?
request {"typeUrl":"CDS"} => "#,
    )
}

#[test]
fn the_type_that_is_meant_is_told(rt: HostRuntime) -> Result<(), Fail> {
    hold::<Told, HostRuntime>(
        &rt,
        r#"type CDS => 
type type.googleapis.com/envoy.config.cluster.v3.Clusterr
     => typeUrl "type.googleapis.com/envoy.config.cluster.v3.Clusterr" is none that is known; did you mean "CDS"?
type type.googleapis.com/envoy.config.route.v2.RouteConfiguration
     => typeUrl "type.googleapis.com/envoy.config.route.v2.RouteConfiguration" is none that is known; did you mean "RDS"?
type type.googleapis.com/envoy.config.endpoint.v3.ClusterLoadAssigment
     => typeUrl "type.googleapis.com/envoy.config.endpoint.v3.ClusterLoadAssigment" is none that is known; did you mean "EDS"?
type type.googleapis.com/google.protobuf.Any => typeUrl "type.googleapis.com/google.protobuf.Any" is none that is known
type x => typeUrl "x" is none that is known"#,
    )
}

#[test]
fn what_is_wrong_of_a_line_of_a_trace_is_told(rt: HostRuntime) -> Result<(), Fail> {
    hold::<Told, HostRuntime>(
        &rt,
        r#"trace opne 1 => "opne" is none of write, open, close, request, response and idle
trace open x => "x" isn't the number of a stream, from 1
trace open 1 => stream 1 was opened before
trace close 0 => "0" isn't the number of a stream, from 1
trace close 2 => stream 2 isn't open
trace idle 1 clusters => "clusters" is none of cluster, endpoint, listener, route and secret
trace request 1 2 {} => "2" isn't the number of a request: 1, or 3 of the delta variant
trace request 1 1 {"typeUrl":1} => "typeUrl" isn't a text
trace response 1 2 {"typeUrl":"CDSS"} => typeUrl "CDSS" is none that is known; did you mean "CDS"?
trace write {"typeUrl":"CDS","name":"a","counter":1,"writer":0} => "writer" isn't a number from 1 to 65535"#,
    )
}

#[test]
fn what_is_wrong_of_a_line_of_a_script_is_told(rt: HostRuntime) -> Result<(), Fail> {
    hold::<Told, HostRuntime>(
        &rt,
        r#"script vieww 1 => "vieww" is no command of a script
script view 1 clusters => wrong words behind "view"
script put x {"@type":"CDS","name":"a"} => no number of a replica
script put 1 {"@type":"CDSS","name":"a"} => typeUrl "CDSS" is none that is known; did you mean "CDS"?
script put 1 {"@type":"CDS","name":""} => 5 BadName
script put 1 {"name":"a"} => there is no "@type": the type of the resource
script delete 1 clusters a => unknown type"#,
    )
}

struct Plain;

impl Outcome for Plain {
    fn of(alloc: Global, given: &str) -> Result<String, Fail> {
        let line = plain_line(alloc, given)?;
        match str::from_utf8(line.as_slice()) {
            Ok(text) => Ok(String::from_str(alloc, text.trim_end())?),
            Err(_) => Err(Fail::new("no text")),
        }
    }
}

#[test]
fn what_is_told_is_one_line(rt: HostRuntime) -> Result<(), Fail> {
    hold::<Plain, HostRuntime>(
        &rt,
        "a\tb c => a?b c
žluť => žluť",
    )
}
