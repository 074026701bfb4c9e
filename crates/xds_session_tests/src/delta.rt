// Stories of an incremental client and one replica. A step is done on a copy of the session, which
// then stands for it.
ghost use Rattle.std.proofs.Props.{props};
ghost use Rattle.xds_catalogue.specs.Holdings.{IsCatalogue};
ghost use Rattle.xds_ledger.specs.declared.variant.VariantName.TheVariants as variants;
ghost use Rattle.xds_ledger.specs.Lists.{SessionFits};

use crate::stories::{Actor, change, hold, keep, text};
use std::alloc::Global;
use std::test::Fail;
use xds_catalogue::Catalogue;
use xds_interest::ClusterText;
use xds_ledger::{Nonces, Outcome};
use xds_message::DeltaDiscoveryRequest;
use xds_resource::{Cluster, Refusal, ResourceType, Route};
use xds_sessions::Published;
use xds_sessions::delta_session::Session;

#[derive(Drop)]
struct Server<T: ResourceType> {
    replica: u16,
    catalogue: Published<T>,
    session: Session<T>,
    nonces: Nonces,
    ghost named: { IsCatalogue catalogue.entries } by { Prim.hlevel props },
    ghost fits: { SessionFits variants.Delta T.TYPE catalogue session } by { Prim.hlevel props },
}

impl<T: ResourceType> Actor for Server<T> {
    fn new(alloc: Global, replica: u16) -> Server<T> {
        Server {
            replica,
            catalogue: Published::of(alloc, Catalogue::new(alloc)),
            session: Session::new(alloc, ClusterText::none()),
            nonces: Nonces::new(),
        }
    }

    fn answer(&mut self, alloc: Global, verb: &str, rest: &str) -> Result<String, Refusal> {
        self.stand_in(alloc)?;
        match verb {
            "cluster" => self.is_of(alloc, rest),
            "take" => self.take(alloc, rest),
            "poll" => self.poll(alloc),
            "sends" => self.send(alloc),
            "refresh" => self.refresh(alloc),
            "many" => self.put_many(alloc, rest),
            "owes" => text(alloc, if self.owes() { "yes" } else { "no" }),
            _ => self.change(alloc, verb, rest),
        }
    }
}

impl<T: ResourceType> Server<T> {
    // A copy of the session stands for it.
    fn stand_in(&mut self, alloc: Global) -> Result<(), Refusal> {
        let session = self.session.try_copy(alloc)?;
        keep(&mut self.session, session);
        Ok(())
    }

    fn owes(&self) -> bool {
        self.session.owes(&self.catalogue)
    }

    fn change(&mut self, alloc: Global, verb: &str, rest: &str) -> Result<String, Refusal> {
        change(alloc, &mut self.catalogue, verb, rest)
    }

    fn take(&mut self, alloc: Global, request: &str) -> Result<String, Refusal> {
        let request = DeltaDiscoveryRequest::read(alloc, request.as_bytes())?;
        let outcome = self.session.take(alloc, &request);
        drop(request);
        outcome_text(alloc, outcome)
    }

    // The client is of another cluster from the start.
    fn is_of(&mut self, alloc: Global, cluster: &str) -> Result<String, Refusal> {
        let cluster = ClusterText::new(alloc, cluster)?;
        keep(&mut self.session, Session::new(alloc, cluster));
        text(alloc, "of")
    }

    // Whether a poll gives a response.
    fn send(&mut self, alloc: Global) -> Result<String, Refusal> {
        let response = self
            .session
            .poll(alloc, self.replica, &self.catalogue, &mut self.nonces)?;
        let is_some = response.is_some();
        drop(response);
        text(alloc, if is_some { "some" } else { "none" })
    }

    // How many names changed since the session was refreshed.
    fn refresh(&mut self, alloc: Global) -> Result<String, Refusal> {
        let names = self.session.refresh(alloc, &self.catalogue)?;
        Ok(format!(in alloc; "{names}")?)
    }

    fn put_one(&mut self, alloc: Global, number: u64) -> Result<(), Refusal> {
        let resource = resource_text(alloc, T::TYPE.url(), number)?;
        drop(self.change(alloc, "put", resource.as_str())?);
        Ok(())
    }

    // Puts a resource under each number below this one.
    fn put_many(&mut self, alloc: Global, count: &str) -> Result<String, Refusal> {
        let count = count.parse::<u64>().ok().ok_or(Refusal::BadScript)?;
        for number in 0..count {
            self.put_one(alloc, number)?;
        }
        let changes = self.catalogue.catalogue().changes();
        Ok(format!(in alloc; "{changes}")?)
    }

    fn poll(&mut self, alloc: Global) -> Result<String, Refusal> {
        self.session.share(alloc, &mut self.catalogue);
        let response = self
            .session
            .poll(alloc, self.replica, &self.catalogue, &mut self.nonces)?;
        match response {
            Some(draft) => {
                let text = draft.write(alloc);
                drop(draft);
                text
            }
            None => text(alloc, "none"),
        }
    }
}

// A resource whose name is a number.
fn resource_text(alloc: Global, url: &str, number: u64) -> Result<String, Refusal> {
    Ok(format!(in alloc; "{{\"@type\":\"{url}\",\"name\":\"{number}\"}}")?)
}

fn outcome_text(alloc: Global, outcome: Result<Outcome, Refusal>) -> Result<String, Refusal> {
    match outcome? {
        Outcome::Taken => text(alloc, "taken"),
        Outcome::Ignored => text(alloc, "ignored"),
    }
}

// rule: owed
#[test]
fn an_unknown_name_is_removed(rt: HostRuntime) -> Result<(), Fail> {
    hold::<Server<Cluster>>(
        rt.alloc(),
        1,
        r#"owes => no
poll => none
take {"resourceNamesSubscribe":["m"],"typeUrl":"CDS"} => taken
poll => {"nonce":"1","removedResources":["m"],"systemVersionInfo":"1.0","typeUrl":"CDS"}
poll => none
owes => yes
take {"responseNonce":"1","typeUrl":"CDS"} => taken
owes => no
take {"responseNonce":"1","typeUrl":"CDS"} => taken
take {"resourceNamesSubscribe":["n"],"responseNonce":"9","typeUrl":"CDS"} => ignored
owes => no"#,
    )
}

// rule: delta-names
#[test]
fn interests_change_by_what_requests_mention(rt: HostRuntime) -> Result<(), Fail> {
    hold::<Server<Cluster>>(
        rt.alloc(),
        1,
        r#"put {"@type":"CDS","name":"A"} => 1-1
put {"@type":"CDS","name":"B"} => 2-1
take {"typeUrl":"CDS"} => taken
poll => {"nonce":"1",
    "resources":[{"name":"A","resource":{"@type":"CDS","name":"A"},"version":"1-1"},
    {"name":"B","resource":{"@type":"CDS","name":"B"},"version":"2-1"}],"systemVersionInfo":"1.2",
    "typeUrl":"CDS"}
take {"responseNonce":"1","typeUrl":"CDS"} => taken
poll => none
take {"resourceNamesSubscribe":["A"],"typeUrl":"CDS"} => taken
poll => {"nonce":"2",
    "resources":[{"name":"A","resource":{"@type":"CDS","name":"A"},"version":"1-1"}],
    "systemVersionInfo":"1.2","typeUrl":"CDS"}
take {"responseNonce":"2","typeUrl":"CDS"} => taken
poll => none
take {"resourceNamesUnsubscribe":["*"],"typeUrl":"CDS"} => taken
poll => {"nonce":"3",
    "resources":[{"name":"A","resource":{"@type":"CDS","name":"A"},"version":"1-1"}],
    "systemVersionInfo":"1.2","typeUrl":"CDS"}
take {"responseNonce":"3","typeUrl":"CDS"} => taken
poll => none
take {"resourceNamesUnsubscribe":["A"],"typeUrl":"CDS"} => taken
poll => none
owes => no
take {"resourceNamesSubscribe":["*"],"typeUrl":"CDS"} => taken
poll => {"nonce":"4",
    "resources":[{"name":"A","resource":{"@type":"CDS","name":"A"},"version":"1-1"},
    {"name":"B","resource":{"@type":"CDS","name":"B"},"version":"2-1"}],"systemVersionInfo":"1.2",
    "typeUrl":"CDS"}
take {"responseNonce":"4","typeUrl":"CDS"} => taken
owes => no"#,
    )
}

// rule: accept-reject, rule: owed
#[test]
fn a_name_touched_meanwhile_is_told_again(rt: HostRuntime) -> Result<(), Fail> {
    hold::<Server<Cluster>>(
        rt.alloc(),
        1,
        r#"put {"@type":"CDS","name":"n"} => 1-1
take {"resourceNamesSubscribe":["*"],"typeUrl":"CDS"} => taken
poll => {"nonce":"1",
    "resources":[{"name":"n","resource":{"@type":"CDS","name":"n"},"version":"1-1"}],
    "systemVersionInfo":"1.1","typeUrl":"CDS"}
delete n => 2-1
take {"resourceNamesUnsubscribe":["*"],"typeUrl":"CDS"} => taken
take {"resourceNamesSubscribe":["*"],"typeUrl":"CDS"} => taken
take {"responseNonce":"1","typeUrl":"CDS"} => taken
poll => {"nonce":"2","removedResources":["n"],"systemVersionInfo":"1.2","typeUrl":"CDS"}
take {"responseNonce":"2","typeUrl":"CDS"} => taken
owes => no"#,
    )
}

// rule: accept-reject, rule: refused-offer
#[test]
fn a_refused_offer_waits_until_it_differs(rt: HostRuntime) -> Result<(), Fail> {
    hold::<Server<Cluster>>(
        rt.alloc(),
        1,
        r#"put {"@type":"CDS","name":"B"} => 1-1
take {"resourceNamesSubscribe":["*"],"typeUrl":"CDS"} => taken
poll => {"nonce":"1",
    "resources":[{"name":"B","resource":{"@type":"CDS","name":"B"},"version":"1-1"}],
    "systemVersionInfo":"1.1","typeUrl":"CDS"}
take {"responseNonce":"1","typeUrl":"CDS"} => taken
put {"@type":"CDS","name":"A","reject":true} => 2-1
delete B => 3-1
poll => {"nonce":"2","removedResources":["B"],
    "resources":[{"name":"A","resource":{"@type":"CDS","name":"A","reject":true},"version":"2-1"}],
    "systemVersionInfo":"1.3","typeUrl":"CDS"}
take {"errorDetail":{"code":3,"message":"test: A"},"responseNonce":"2","typeUrl":"CDS"} => taken
poll => none
owes => yes
put {"@type":"CDS","name":"A"} => 4-1
poll => {"nonce":"3","removedResources":["B"],
    "resources":[{"name":"A","resource":{"@type":"CDS","name":"A"},"version":"4-1"}],
    "systemVersionInfo":"1.4","typeUrl":"CDS"}
take {"responseNonce":"3","typeUrl":"CDS"} => taken
owes => no"#,
    )
}

// rule: owed
#[test]
fn a_client_resumes_at_a_replica_that_lags(rt: HostRuntime) -> Result<(), Fail> {
    hold::<Server<Cluster>>(
        rt.alloc(),
        2,
        r#"join 2-1 {"@type":"CDS","name":"A"} => 1
take {"initialResourceVersions":{"A":"5-1","B":"6-1"},"resourceNamesSubscribe":["*"],
    "typeUrl":"CDS"} => taken
poll => {"nonce":"1","removedResources":["B"],
    "resources":[{"name":"A","resource":{"@type":"CDS","name":"A"},"version":"2-1"}],
    "systemVersionInfo":"2.1","typeUrl":"CDS"}
take {"initialResourceVersions":{"A":"5-1"},"responseNonce":"1","typeUrl":"CDS"} => taken
owes => no
poll => none"#,
    )
}

// rule: owed
#[test]
fn what_a_client_holds_is_not_sent_again(rt: HostRuntime) -> Result<(), Fail> {
    hold::<Server<Route>>(
        rt.alloc(),
        1,
        r#"put {"@type":"RDS","name":"q"} => 1-1
put {"@type":"RDS","name":"r"} => 2-1
take {"initialResourceVersions":{"q":"1-1","s":"1-1"},"resourceNamesSubscribe":["q","*"],
    "responseNonce":"7","typeUrl":"RDS"} => taken
poll => {"nonce":"1","removedResources":["*","s"],"systemVersionInfo":"1.2","typeUrl":"RDS"}
take {"resourceNamesSubscribe":["r"],"resourceNamesUnsubscribe":["r"],"responseNonce":"1",
    "typeUrl":"RDS"} => taken
poll => {"nonce":"2",
    "resources":[{"name":"r","resource":{"@type":"RDS","name":"r"},"version":"2-1"}],
    "systemVersionInfo":"1.2","typeUrl":"RDS"}
take {"responseNonce":"2","typeUrl":"RDS"} => taken
owes => no"#,
    )
}

// rule: groups, rule: owed
#[test]
fn what_leaves_the_group_is_removed(rt: HostRuntime) -> Result<(), Fail> {
    hold::<Server<Cluster>>(
        rt.alloc(),
        1,
        r#"cluster g1 => of
putin g1 {"@type":"CDS","name":"a"} => 1-1
put {"@type":"CDS","name":"b"} => 2-1
putin g2 {"@type":"CDS","name":"c"} => 3-1
take {"resourceNamesSubscribe":["*"],"typeUrl":"CDS"} => taken
poll => {"nonce":"1",
    "resources":[{"name":"a","resource":{"@type":"CDS","name":"a"},"version":"1-1"},
    {"name":"b","resource":{"@type":"CDS","name":"b"},"version":"2-1"}],"systemVersionInfo":"1.3",
    "typeUrl":"CDS"}
take {"responseNonce":"1","typeUrl":"CDS"} => taken
take {"resourceNamesSubscribe":["c"],"typeUrl":"CDS"} => taken
poll => {"nonce":"2",
    "resources":[{"name":"c","resource":{"@type":"CDS","name":"c"},"version":"3-1"}],
    "systemVersionInfo":"1.3","typeUrl":"CDS"}
take {"responseNonce":"2","typeUrl":"CDS"} => taken
take {"resourceNamesUnsubscribe":["c"],"typeUrl":"CDS"} => taken
poll => {"nonce":"3","removedResources":["c"],"systemVersionInfo":"1.3","typeUrl":"CDS"}
take {"responseNonce":"3","typeUrl":"CDS"} => taken
owes => no
putin g2 {"@type":"CDS","name":"a"} => 4-1
poll => {"nonce":"4","removedResources":["a"],"systemVersionInfo":"1.4","typeUrl":"CDS"}
take {"responseNonce":"4","typeUrl":"CDS"} => taken
owes => no"#,
    )
}

// rule: owed
#[test]
fn a_settled_client_costs_what_changes(rt: HostRuntime) -> Result<(), Fail> {
    hold::<Server<Cluster>>(
        rt.alloc(),
        1,
        r#"many 1000 => 1000
refresh => 0
take {"resourceNamesSubscribe":["*"],"typeUrl":"CDS"} => taken
sends => some
take {"responseNonce":"1","typeUrl":"CDS"} => taken
owes => no
sends => none
refresh => 0
put {"@type":"CDS","name":"7"} => 1001-1
owes => yes
refresh => 1
refresh => 0
owes => yes
poll => {"nonce":"2",
    "resources":[{"name":"7","resource":{"@type":"CDS","name":"7"},"version":"1001-1"}],
    "systemVersionInfo":"1.1001","typeUrl":"CDS"}
delete 8 => 1002-1
take {"responseNonce":"2","typeUrl":"CDS"} => taken
refresh => 1
poll => {"nonce":"3","removedResources":["8"],"systemVersionInfo":"1.1002","typeUrl":"CDS"}
take {"resourceNamesUnsubscribe":["*"],"responseNonce":"3","typeUrl":"CDS"} => taken
sends => none
refresh => 0
take {"resourceNamesSubscribe":["*"],"typeUrl":"CDS"} => taken
refresh => 1000
sends => some"#,
    )
}
