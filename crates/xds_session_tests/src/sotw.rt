// Sessions, by scripts of what replica 1 does, and what a client asks of it and is answered.
ghost use Rattle.std.proofs.Props.{props};
ghost use Rattle.xds_catalogue.specs.Holdings.{IsCatalogue};
ghost use Rattle.xds_ledger.specs.declared.variant.VariantName.TheVariants as variants;
ghost use Rattle.xds_ledger.specs.Lists.{SessionFits};

use crate::stories::{change, keep};
use std::alloc::Global;
use std::test::Fail;
use xds_cases::scripts::{Script, either, follow};
use xds_catalogue::Catalogue;
use xds_interest::ClusterText;
use xds_ledger::{Nonces, Outcome};
use xds_message::DiscoveryRequest;
use xds_resource::{Cluster, Refusal, ResourceType, Route, Secret};
use xds_sessions::Published;
use xds_sessions::sotw_session::Session;

// What the replica holds of a type, and one stream's session of that type.
#[derive(Drop)]
struct Stream<T: ResourceType> {
    catalogue: Published<T>,
    session: Session<T>,
    nonces: Nonces,
    ghost named: { IsCatalogue catalogue.entries } by { Prim.hlevel props },
    ghost fits: { SessionFits variants.StateOfTheWorld T.TYPE catalogue session } by { Prim.hlevel props },
}

impl<T: ResourceType> Stream<T> {
    fn taken(&mut self, alloc: Global, request: &str) -> Result<String, Refusal> {
        let request = DiscoveryRequest::read(alloc, request.as_bytes())?;
        let outcome = self.session.take(alloc, &request);
        drop(request);
        outcome_text(alloc, outcome)
    }

    fn owes(&self) -> bool {
        self.session.owes(&self.catalogue)
    }

    fn change(&mut self, alloc: Global, verb: &str, rest: &str) -> Result<String, Refusal> {
        change(alloc, &mut self.catalogue, verb, rest)
    }

    // The client is of another cluster from the start.
    fn is_of(&mut self, alloc: Global, cluster: &str) -> Result<String, Refusal> {
        let cluster = ClusterText::new(alloc, cluster)?;
        keep(&mut self.session, Session::new(alloc, cluster));
        Ok(String::from_str(alloc, "of")?)
    }

    fn polled(&mut self, alloc: Global) -> Result<String, Refusal> {
        self.session.share(alloc, &mut self.catalogue);
        match self
            .session
            .poll(alloc, 1, &self.catalogue, &mut self.nonces)?
        {
            Some(draft) => {
                let text = draft.write(alloc);
                drop(draft);
                text
            }
            None => Ok(String::from_str(alloc, "none")?),
        }
    }
}

impl<T: ResourceType> Script for Stream<T> {
    fn begin(alloc: Global) -> Stream<T> {
        Stream {
            catalogue: Published::of(alloc, Catalogue::new(alloc)),
            session: Session::new(alloc, ClusterText::none()),
            nonces: Nonces::new(),
        }
    }

    fn step(&mut self, alloc: Global, verb: &str, rest: &str) -> Result<String, Refusal> {
        match verb {
            "cluster" => self.is_of(alloc, rest),
            "put" | "putin" | "delete" => self.change(alloc, verb, rest),
            "take" => self.taken(alloc, rest),
            "poll" => self.polled(alloc),
            _ => either(alloc, self.owes(), "owes", "quiet"),
        }
    }
}

fn outcome_text(alloc: Global, outcome: Result<Outcome, Refusal>) -> Result<String, Refusal> {
    let outcome = outcome?;
    either(alloc, outcome == Outcome::Taken, "taken", "ignored")
}

// rule: listed-names, rule: stale-nonce, rule: accept-reject, rule: whole-response
// rule: refused-offer
#[test]
fn clusters_are_told(rt: HostRuntime) -> Result<(), Fail> {
    follow::<Stream<Cluster>, HostRuntime>(
        &rt,
        r#"take {"typeUrl":"CDS"} => taken
poll => {"nonce":"1","typeUrl":"CDS","versionInfo":"1.0"}

put {"@type":"CDS","name":"A"} => 1-1
put {"@type":"CDS","name":"B"} => 2-1
take {"typeUrl":"CDS"} => taken
poll => {"nonce":"1","resources":[{"@type":"CDS","name":"A"},{"@type":"CDS","name":"B"}],
    "typeUrl":"CDS","versionInfo":"1.2"}
take {"responseNonce":"1","typeUrl":"CDS"} => taken
poll => none
take {"resourceNames":["*","A"],"responseNonce":"1","typeUrl":"CDS"} => taken
poll => {"nonce":"2","resources":[{"@type":"CDS","name":"A"},{"@type":"CDS","name":"B"}],
    "typeUrl":"CDS","versionInfo":"1.2"}
take {"resourceNames":["*","A"],"responseNonce":"2","typeUrl":"CDS"} => taken
poll => none
take {"resourceNames":["A"],"responseNonce":"2","typeUrl":"CDS"} => taken
poll => {"nonce":"3","resources":[{"@type":"CDS","name":"A"}],"typeUrl":"CDS",
    "versionInfo":"1.2.named"}
take {"resourceNames":["A"],"responseNonce":"3","typeUrl":"CDS"} => taken
poll => none
take {"responseNonce":"3","typeUrl":"CDS"} => taken
poll => none
owes => quiet

put {"@type":"CDS","name":"A"} => 1-1
put {"@type":"CDS","name":"B"} => 2-1
take {"typeUrl":"CDS"} => taken
poll => {"nonce":"1","resources":[{"@type":"CDS","name":"A"},{"@type":"CDS","name":"B"}],
    "typeUrl":"CDS","versionInfo":"1.2"}
take {"resourceNames":["*","A"],"responseNonce":"1","typeUrl":"CDS"} => taken
poll => {"nonce":"2","resources":[{"@type":"CDS","name":"A"},{"@type":"CDS","name":"B"}],
    "typeUrl":"CDS","versionInfo":"1.2"}
take {"resourceNames":["A"],"responseNonce":"2","typeUrl":"CDS"} => taken
poll => {"nonce":"3","resources":[{"@type":"CDS","name":"A"}],"typeUrl":"CDS",
    "versionInfo":"1.2.named"}
take {"responseNonce":"3","typeUrl":"CDS"} => taken
poll => none
owes => quiet

owes => quiet
poll => none
take {"typeUrl":"CDS"} => taken
owes => owes
poll => {"nonce":"1","typeUrl":"CDS","versionInfo":"1.0"}
owes => owes
take {"responseNonce":"1","typeUrl":"CDS"} => taken
owes => quiet
take {"responseNonce":"1","typeUrl":"CDS"} => taken
owes => quiet
poll => none
take {"responseNonce":"9","typeUrl":"CDS"} => ignored
poll => none

put {"@type":"CDS","name":"A"} => 1-1
take {"errorDetail":{},"responseNonce":"9","typeUrl":"CDS"} => taken
poll => {"nonce":"1","resources":[{"@type":"CDS","name":"A"}],"typeUrl":"CDS","versionInfo":"1.1"}
take {"errorDetail":{"code":3},"responseNonce":"1","typeUrl":"CDS"} => taken
owes => owes
poll => none
put {"@type":"CDS","name":"B"} => 2-1
delete A => 3-1
poll => {"nonce":"2","resources":[{"@type":"CDS","name":"B"}],"typeUrl":"CDS",
    "versionInfo":"1.3"}"#,
    )
}

// rule: listed-names, rule: star-covers, rule: one-unanswered
#[test]
fn routes_are_told(rt: HostRuntime) -> Result<(), Fail> {
    follow::<Stream<Route>, HostRuntime>(
        &rt,
        r#"take {"resourceNames":["q"],"typeUrl":"RDS"} => taken
poll => none
put {"@type":"RDS","name":"q"} => 1-1
poll => {"nonce":"1","resources":[{"@type":"RDS","name":"q"}],"typeUrl":"RDS",
    "versionInfo":"1.1.named"}

put {"@type":"RDS","name":"a"} => 1-1
put {"@type":"RDS","name":"b"} => 2-1
take {"resourceNames":["a"],"typeUrl":"RDS"} => taken
poll => {"nonce":"1","resources":[{"@type":"RDS","name":"a"}],"typeUrl":"RDS",
    "versionInfo":"1.2.named"}
take {"resourceNames":["a"],"responseNonce":"1","typeUrl":"RDS"} => taken
put {"@type":"RDS","name":"a"} => 3-1
poll => {"nonce":"2","resources":[{"@type":"RDS","name":"a"}],"typeUrl":"RDS",
    "versionInfo":"1.3.named"}
take {"resourceNames":["a","b"],"responseNonce":"1","typeUrl":"RDS"} => taken
poll => none
take {"resourceNames":["a","b"],"responseNonce":"2","typeUrl":"RDS"} => taken
poll => {"nonce":"3","resources":[{"@type":"RDS","name":"b"}],"typeUrl":"RDS",
    "versionInfo":"1.3.named"}

put {"@type":"RDS","name":"a"} => 1-1
take {"resourceNames":["a"],"typeUrl":"RDS"} => taken
poll => {"nonce":"1","resources":[{"@type":"RDS","name":"a"}],"typeUrl":"RDS",
    "versionInfo":"1.1.named"}
take {"resourceNames":["a"],"responseNonce":"1","typeUrl":"RDS"} => taken
delete a => 2-1
owes => quiet
poll => none
take {"typeUrl":"RDS"} => taken
take {"responseNonce":"7","typeUrl":"RDS"} => ignored
poll => none"#,
    )
}

// rule: star-covers, rule: groups
#[test]
fn a_star_covers_the_groups_of_its_cluster(rt: HostRuntime) -> Result<(), Fail> {
    follow::<Stream<Cluster>, HostRuntime>(
        &rt,
        r#"putin g1 {"@type":"CDS","name":"a"} => 1-1
put {"@type":"CDS","name":"b"} => 2-1
putin g2 {"@type":"CDS","name":"c"} => 3-1
cluster g1 => of
take {"typeUrl":"CDS"} => taken
poll => {"nonce":"1","resources":[{"@type":"CDS","name":"a"},{"@type":"CDS","name":"b"}],
    "typeUrl":"CDS","versionInfo":"1.3@g1"}

putin g1 {"@type":"CDS","name":"a"} => 1-1
put {"@type":"CDS","name":"b"} => 2-1
putin g2 {"@type":"CDS","name":"c"} => 3-1
take {"typeUrl":"CDS"} => taken
poll => {"nonce":"1","resources":[{"@type":"CDS","name":"b"}],"typeUrl":"CDS","versionInfo":"1.3"}

putin g1 {"@type":"CDS","name":"a"} => 1-1
put {"@type":"CDS","name":"b"} => 2-1
putin g2 {"@type":"CDS","name":"c"} => 3-1
cluster g1 => of
take {"resourceNames":["c"],"typeUrl":"CDS"} => taken
poll => {"nonce":"1","resources":[{"@type":"CDS","name":"c"}],"typeUrl":"CDS",
    "versionInfo":"1.3.named"}

putin g1,g2 {"@type":"CDS","name":"a"} => 1-1
cluster g2 => of
take {"typeUrl":"CDS"} => taken
poll => {"nonce":"1","resources":[{"@type":"CDS","name":"a"}],"typeUrl":"CDS",
    "versionInfo":"1.1@g2"}
take {"responseNonce":"1","typeUrl":"CDS"} => taken
owes => quiet
putin g1 {"@type":"CDS","name":"a"} => 2-1
poll => {"nonce":"2","typeUrl":"CDS","versionInfo":"1.2@g2"}
take {"responseNonce":"2","typeUrl":"CDS"} => taken
owes => quiet"#,
    )
}

// rule: star-covers
#[test]
fn secrets_are_told_by_name(rt: HostRuntime) -> Result<(), Fail> {
    follow::<Stream<Secret>, HostRuntime>(
        &rt,
        r#"put {"@type":"SDS","name":"s"} => 1-1
take {"resourceNames":["s"],"typeUrl":"SDS"} => taken
poll => {"nonce":"1","resources":[{"@type":"SDS","name":"s"}],"typeUrl":"SDS",
    "versionInfo":"1.1.named"}

put {"@type":"SDS","name":"s"} => 1-1
take {"typeUrl":"SDS"} => taken
poll => none
owes => quiet"#,
    )
}
