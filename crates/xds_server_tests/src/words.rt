// Words of requests at an operator's port, and how moments and a process are told there.
use std::alloc::Global;
use std::test::Fail;
use xds_cases::cases::{Outcome, hold};
use xds_changes::choice::choice_in;
use xds_machine::door::host_name;
use xds_machine::meter::usage_in;
use xds_stats::utc_text;

// What the words behind a question mark choose: the replica, the type, the name, and how changes are made.
struct Chosen;

impl Outcome for Chosen {
    fn of(alloc: Global, given: &str) -> Result<String, Fail> {
        let choice = match choice_in(alloc, given.trim_matches('\'')) {
            Ok(choice) => choice,
            Err(unchosen) => return Ok(format!(in alloc; "{unchosen:?}")?),
        };
        let replica = choice.replica.unwrap_or(0);
        let kind = match choice.kind {
            Some(kind) => kind.word(),
            None => "any",
        };
        let names = names_of(alloc, &choice.names)?;
        let name = names.as_str();
        let how = match (choice.is_tried, choice.is_whole) {
            (true, true) => "both",
            (true, false) => "tried",
            (false, true) => "whole",
            (false, false) => "each",
        };
        Ok(format!(in alloc; "{replica} {kind} {name} {how}")?)
    }
}

// Names with a bar between two, and a word where there are none.
fn names_of(alloc: Global, names: &Vec<String>) -> Result<String, Fail> {
    let mut text = String::new(alloc);
    for name in names {
        if !text.as_str().is_empty() {
            text.push_str("|")?;
        }
        text.push_str(name.as_str())?;
    }
    if names.is_empty() {
        text.push_str("any")?;
    }
    Ok(text)
}

#[test]
fn words_behind_a_question_mark_choose(rt: HostRuntime) -> Result<(), Fail> {
    hold::<Chosen, HostRuntime>(
        &rt,
        "'' => 0 any any each
'replica=2' => 2 any any each
'replica=65535&type=route' => 65535 route any each
'type=secret&name=a' => 0 secret a each
'name=a%20b%26c' => 0 any a b&c each
'name=a+b' => 0 any a b each
'name=a&name=b&name=a' => 0 any a|b|a each
'name=' => 0 any  each
'dry-run' => 0 any any tried
'dry-run=' => 0 any any tried
'all-or-nothing' => 0 any any whole
'dry-run&all-or-nothing' => 0 any any both
'replica=0' => NoNumber
'replica=65536' => NoNumber
'replica=01' => NoNumber
'replica' => NoNumber
'type=clusters' => UnknownType
'type=' => UnknownType
'dry_run' => UnknownWord
'Replica=1' => UnknownWord
'replica=1&x' => UnknownWord",
    )
}

// The host that a field `host` names.
struct Named;

impl Outcome for Named {
    fn of(alloc: Global, given: &str) -> Result<String, Fail> {
        Ok(String::from_str(alloc, host_name(given))?)
    }
}

#[test]
fn hosts_are_named_without_their_ports(rt: HostRuntime) -> Result<(), Fail> {
    hold::<Named, HostRuntime>(
        &rt,
        "localhost => localhost
localhost:80 => localhost
localhost: => localhost
127.0.0.1:18200 => 127.0.0.1
[::1] => [::1]
[::1]:80 => [::1]
localhost:80:81 => localhost:80
localhost:8x => localhost:8x
evil.example:127.0.0.1 => evil.example:127.0.0.1
evil.example:localhost => evil.example:localhost",
    )
}

// What a process takes: microseconds, bytes in use, bytes that are spoken for, and threads.
struct Taken;

impl Outcome for Taken {
    fn of(alloc: Global, given: &str) -> Result<String, Fail> {
        let Some(usage) = usage_in(given) else {
            return Ok(String::from_str(alloc, "none")?);
        };
        let cpu = usage.cpu_micros;
        let resident = usage.resident;
        let bytes = usage.virtual_bytes;
        let threads = usage.threads;
        Ok(format!(in alloc; "{cpu} {resident} {bytes} {threads}")?)
    }
}

#[test]
fn what_a_process_takes_is_read(rt: HostRuntime) -> Result<(), Fail> {
    hold::<Taken, HostRuntime>(
        &rt,
        "7 (xds) S 1 1 1 1 1 1 1 1 1 1 50 7 0 0 20 0 9 0 5 123456 300 4 => 570000 1228800 123456 9
7 (a) 1 1) R 1 1 1 1 1 1 1 1 1 1 50 7 0 0 20 0 9 0 5 123456 300 4 => 570000 1228800 123456 9
7 (xds) S 1 1 1 1 1 1 1 1 1 1 50 7 0 0 20 0 9 0 5 123456 => none
7 (xds) S 1 1 1 1 1 1 1 1 1 1 50 x 0 0 20 0 9 0 5 123456 300 4 => none
7 xds S => none",
    )
}

// A moment of the wall clock, by its milliseconds.
struct Written;

impl Outcome for Written {
    fn of(alloc: Global, given: &str) -> Result<String, Fail> {
        let millis: u64 = given.parse().ok().ok_or("no number")?;
        let text = utc_text(alloc, millis)?;
        if text.as_str().is_empty() {
            return Ok(String::from_str(alloc, "none")?);
        }
        Ok(text)
    }
}

#[test]
fn moments_are_told_in_utc(rt: HostRuntime) -> Result<(), Fail> {
    hold::<Written, HostRuntime>(
        &rt,
        "0 => 1970-01-01T00:00:00.000Z
951782400000 => 2000-02-29T00:00:00.000Z
1775001599007 => 2026-03-31T23:59:59.007Z
1777510923070 => 2026-04-30T01:02:03.070Z
1777593600700 => 2026-05-01T00:00:00.700Z
1780996149999 => 2026-06-09T09:09:09.999Z
1783678210010 => 2026-07-10T10:10:10.010Z
1786795200001 => 2026-08-15T12:00:00.001Z
1790774055016 => 2026-09-30T13:14:15.016Z
1793404800000 => 2026-10-31T00:00:00.000Z
1795895073123 => 2026-11-28T19:44:33.123Z
1798761599999 => 2026-12-31T23:59:59.999Z
253402300799999 => 9999-12-31T23:59:59.999Z
253402300800000 => none",
    )
}
