// What requests at an operator's port ask for.
use std::alloc::Global;
use std::test::Fail;
use xds_admin::routed;
use xds_cases::cases::{Outcome, hold};
use xds_changes::{WantedWrites, marks_text, read_wanted};

// What a request of a method and a path asks for.
struct Routed;

impl Outcome for Routed {
    fn of(alloc: Global, given: &str) -> Result<String, Fail> {
        let (method, path) = given.split_once(' ').ok_or("no path")?;
        match routed(method, path) {
            Ok(route) => Ok(format!(in alloc; "{route:?}")?),
            Err(status) => Ok(format!(in alloc; "{status}")?),
        }
    }
}

#[test]
fn requests_are_routed(rt: HostRuntime) -> Result<(), Fail> {
    hold::<Routed, HostRuntime>(
        &rt,
        "GET /healthz => Health
GET /ready => Ready
POST /ready => Open
PUT /ready => 405
GET /metrics => Metrics
GET /status => Status
POST /changes => Changes
GET /writes => Writes
POST /writes => Merge
PUT /writes => 405
GET /writes/ => 404
POST /stop => Stop
GET /stop => 405
GET /changes => 405
POST /metrics => 405
GET / => Page
POST / => 405
GET /resources => Resources
POST /resources => 405
GET /status.txt => Lines
GET // => 404
POST /healthz/ => 404
GET /metrics?x => 404",
    )
}

// What a query of writes asks for: the place of the replica, the counts of changes, and the seconds.
struct Asked;

impl Outcome for Asked {
    fn of(alloc: Global, given: &str) -> Result<String, Fail> {
        let query = given.trim_matches('\'');
        match read_wanted(query) {
            Some(
                WantedWrites {
                    replica,
                    since,
                    wait,
                },
            ) => {
                let marks = marks_text(alloc, since)?;
                let marks = marks.as_str();
                Ok(format!(in alloc; "{replica} {marks} {wait}")?)
            }
            None => Ok(String::from_str(alloc, "none")?),
        }
    }
}

#[test]
fn queries_of_writes_are_read(rt: HostRuntime) -> Result<(), Fail> {
    hold::<Asked, HostRuntime>(
        &rt,
        "'' => 1 0.0.0.0.0 0
'replica=2' => 2 0.0.0.0.0 0
'since=1.2.3.4.5' => 1 1.2.3.4.5 0
'since=18446744073709551615.0.0.0.10' => 1 18446744073709551615.0.0.0.10 0
'wait=300' => 1 0.0.0.0.0 300
'wait=20&replica=16&since=0.0.7.0.0' => 16 0.0.7.0.0 20
'wait=1&wait=2&wait=3&replica=65535' => 65535 0.0.0.0.0 3
'wait=301' => none
'wait=01' => none
'wait=' => none
'wait' => none
'wait=1=2' => none
'wait=1&' => none
'&' => none
'replica=0' => none
'replica=65536' => none
'replica=-1' => none
'since=1.2.3.4' => none
'since=1.2.3.4.5.6' => none
'since=1.2.3.4.' => none
'since=1.2..4.5' => none
'since=18446744073709551616.0.0.0.0' => none
'Wait=1' => none
'x=1' => none",
    )
}
