// A delta client that plays a script. Its changes name what is subscribed, then `-` and what is
// unsubscribed.
use crate::caches::script::{Player, answered, linked, perhaps_answered, put};
use std::alloc::Global;
use xds_cache::{Cache, DeltaClient, Down, Marked, Up};
use xds_cases::cases::words_of;
use xds_message::DeltaDiscoveryResponse;
use xds_resource::{Refusal, TypeName};

/// A client whose node id is `7`, and which refuses resources that are marked: one of both is
/// there.
#[derive(Drop)]
pub struct Delta {
    down: Option<DeltaClient<Marked, Down>>,
    up: Option<DeltaClient<Marked, Up>>,
}

impl Player for Delta {
    fn new(alloc: Global, cluster: &str) -> Result<Delta, Refusal> {
        let node_id = String::from_str(alloc, "7")?;
        let cluster = String::from_str(alloc, cluster)?;
        let client = DeltaClient::new(alloc, node_id, cluster);
        Ok(Delta {
            down: Some(client),
            up: None,
        })
    }

    fn connect(&mut self, alloc: Global) -> Result<String, Refusal> {
        let client = self.down.take().ok_or(Refusal::NotFound)?;
        linked(alloc, client.connect(alloc), &mut self.down, &mut self.up)
    }

    fn lose(&mut self) -> Result<(), Refusal> {
        let client = self.up.take().ok_or(Refusal::NotFound)?;
        put(&mut self.down, client.lose());
        Ok(())
    }

    fn poll(&self, _alloc: Global, _kind: TypeName) -> Result<String, Refusal> {
        Err(Refusal::NotFound)
    }

    fn change(&mut self, alloc: Global, kind: TypeName, words: &str) -> Result<String, Refusal> {
        let (subscribe, unsubscribe) = words.split_once('-').unwrap_or((words, ""));
        let subscribe = words_of(alloc, subscribe)?;
        let unsubscribe = words_of(alloc, unsubscribe)?;
        let (added, gone) = (subscribe.as_slice(), unsubscribe.as_slice());
        if let Some(client) = self.down.as_mut() {
            return perhaps_answered(alloc, client.change(alloc, kind, added, gone));
        }
        let client = self.up.as_mut().ok_or(Refusal::NotFound)?;
        perhaps_answered(alloc, client.change(alloc, kind, added, gone))
    }

    fn receive(&mut self, alloc: Global, message: &str) -> Result<String, Refusal> {
        let client = self.up.as_mut().ok_or(Refusal::NotFound)?;
        let response = DeltaDiscoveryResponse::read(alloc, message.as_bytes())?;
        let sent = client.receive(alloc, &response);
        drop(response);
        answered(alloc, sent)
    }

    fn view(&self, kind: TypeName) -> Result<&Cache, Refusal> {
        if let Some(client) = self.down.as_ref() {
            return Ok(client.view(kind));
        }
        let client = self.up.as_ref().ok_or(Refusal::NotFound)?;
        Ok(client.view(kind))
    }
}
