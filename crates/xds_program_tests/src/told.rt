// What is told in words behind a refusal, and traces that are cut short, explained or drawn.
use crate::program::Whole;
use std::test::Fail;
use xds_cases::cases::hold_stories;

#[test]
fn why_a_line_is_refused_is_told(rt: HostRuntime) -> Result<(), Fail> {
    hold_stories::<Whole, HostRuntime>(
        &rt,
        r#"answer
A!{"counter":0,"name":"b","typeUrl":"CDS","writer":1}~{"typeUrl":"CDS"}
 => 1 line 2: 7 BadMessage~line 2: "counter" isn't a number from 1 to 9223372036854775807~

answer
{"resourceNames":[1],"typeUrl":"CDS"}
 => 1 line 1: 7 BadMessage~line 1: "resourceNames" isn't a list of texts~

answer
A!{"typeUrl":"CDSr"}
 => 0 ~typeUrl "CDSr" is none that is known; did you mean "CDS"?~

answer
{"typeUrl":"RDS"}
 => 0 

answer
~ => 1 line 1: 1 NotJson~line 1: not JSON at byte 0~

play
replica 1
vieww 1 cluster
 => 1 line 2: 21 BadScript~line 2: "vieww" is no command of a script~

play
put 1 {"@type":"CDSr","name":"a"}
 => 1 line 1: 21 BadScript~line 1: typeUrl "CDSr" is none that is known; did you mean "CDS"?~

check
open 1
opened 2
close 1
 => 1 line 2: 22 BadTrace~line 2: "opened" is none of write, open, close, request, response and idle~

check
open 1
close 2
 => 1 line 2: 22 BadTrace~line 2: stream 2 isn't open~

check
 => 0 ok~~the trace has no lines~

check
open 1~close 1 => 1 line 2: 22 BadTrace~the trace ends within line 2; --so-far judges the lines before it~"#,
    )
}

#[test]
fn a_trace_that_is_cut_short_is_judged_so_far(rt: HostRuntime) -> Result<(), Fail> {
    hold_stories::<Whole, HostRuntime>(
        &rt,
        r#"check --so-far
open 1~close 1 => 0 ok~judged 1 lines; line 2 isn't whole~

check --so-far
open 1~close 2~ => 0 ok~judged 1 lines; line 2 isn't whole~

check --so-far
open 1~close 1~ => 0 ok~

check --so-far
open 1~close 2~close 1~
 => 1 line 2: 22 BadTrace~line 2: stream 2 isn't open~

check --so-far
open => 0 ok~judged 0 lines; line 1 isn't whole~

check --so-far
 => 0 ok~

check --so-far
open 1~request 1 1 {"typeUrl":"CDS"}~response 1 2 {"typeUrl":"CDS","versionInfo":"1.0"}~clo
     => 1 broken 3 P1~judged 3 lines; line 4 isn't whole~

check --explain
open 1~close 1 => 1 line 2: 22 BadTrace~the trace ends within line 2; --so-far judges the lines before it~

check --explain
open 1~close 2~close 1 => 1 line 2: 22 BadTrace~line 2: stream 2 isn't open~

check --explain
open 1~close 1~ => 0 ok~"#,
    )
}

#[test]
fn why_a_rule_is_broken_is_told(rt: HostRuntime) -> Result<(), Fail> {
    hold_stories::<Whole, HostRuntime>(
        &rt,
        r#"check --explain
open 1~request 1 1 {"typeUrl":"CDS"}~response 1 2 {"typeUrl":"CDS"}~close 1~
     => 1 broken 3 P1~line 3 breaks P1: response 1 2 {"typeUrl":"CDS"}~
    P1: A response has a nonce, and no response before it on its stream, of whatever type, had the same.~
    stream 1: state of the world, node id "", node cluster "" (line 2)~
    type: cluster~nonce: "", which is none~last nonce of the stream: none~

check --so-far --explain
open 1~request 1 1 {"typeUrl":"CDS"}~response 1 2 {"typeUrl":"CDS"}~clo
     => 1 broken 3 P1~line 3 breaks P1: response 1 2 {"typeUrl":"CDS"}~
    P1: A response has a nonce, and no response before it on its stream, of whatever type, had the same.~
    stream 1: state of the world, node id "", node cluster "" (line 2)~
    type: cluster~nonce: "", which is none~last nonce of the stream: none~
    judged 3 lines; line 4 isn't whole~

check --so-far
open 1~request 1 1 {"typeUrl":"CDS"}~response 1 2 {"typeUrl":"CDS"}~ => 1 broken 3 P1~"#,
    )
}

#[test]
fn a_picture_is_drawn(rt: HostRuntime) -> Result<(), Fail> {
    hold_stories::<Whole, HostRuntime>(
        &rt,
        r#"check --picture a.svg
open 1~close 1~ => 0 draws a.svg true ok~

check --picture a.svg
open 1~close 1 => 1 line 2: 22 BadTrace~the trace ends within line 2; --so-far judges the lines before it~

check --so-far --picture a.svg
open 1~close 1 => 0 draws a.svg true ok~judged 1 lines; line 2 isn't whole~

play --picture a.svg
replica 1~ => 0 draws a.svg true 

play --picture a.svg
replicas 1~ => 1 line 1: 21 BadScript~line 1: "replicas" is no command of a script~"#,
    )
}
