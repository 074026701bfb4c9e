// A state-of-the-world client that plays a script.
use crate::caches::script::{Player, answered, linked, perhaps_answered, put};
use std::alloc::Global;
use xds_cache::{Cache, Down, Marked, SotwClient, Up};
use xds_cases::cases::words_of;
use xds_message::DiscoveryResponse;
use xds_resource::{Refusal, TypeName};

/// A client whose node id is `7`, and which refuses resources that are marked: one of both is
/// there.
#[derive(Drop)]
pub struct Sotw {
    down: Option<SotwClient<Marked, Down>>,
    up: Option<SotwClient<Marked, Up>>,
}

impl Player for Sotw {
    fn new(alloc: Global, cluster: &str) -> Result<Sotw, Refusal> {
        let node_id = String::from_str(alloc, "7")?;
        let cluster = String::from_str(alloc, cluster)?;
        let client = SotwClient::new(alloc, node_id, cluster);
        Ok(Sotw {
            down: Some(client),
            up: None,
        })
    }

    fn connect(&mut self, alloc: Global) -> Result<String, Refusal> {
        let client = self.down.take().ok_or(Refusal::NotFound)?;
        linked(alloc, client.connect(alloc), &mut self.down, &mut self.up)
    }

    fn lose(&mut self) -> Result<(), Refusal> {
        let client = self.up.take().ok_or(Refusal::NotFound)?;
        put(&mut self.down, client.lose());
        Ok(())
    }

    fn poll(&self, _alloc: Global, _kind: TypeName) -> Result<String, Refusal> {
        Err(Refusal::NotFound)
    }

    fn change(&mut self, alloc: Global, kind: TypeName, words: &str) -> Result<String, Refusal> {
        let names = words_of(alloc, words)?;
        if let Some(client) = self.down.as_mut() {
            return perhaps_answered(alloc, client.change(alloc, kind, names.as_slice()));
        }
        let client = self.up.as_mut().ok_or(Refusal::NotFound)?;
        perhaps_answered(alloc, client.change(alloc, kind, names.as_slice()))
    }

    fn receive(&mut self, alloc: Global, message: &str) -> Result<String, Refusal> {
        let client = self.up.as_mut().ok_or(Refusal::NotFound)?;
        let response = DiscoveryResponse::read(alloc, message.as_bytes())?;
        let sent = client.receive(alloc, &response);
        drop(response);
        answered(alloc, sent)
    }

    fn view(&self, kind: TypeName) -> Result<&Cache, Refusal> {
        if let Some(client) = self.down.as_ref() {
            return Ok(client.view(kind));
        }
        let client = self.up.as_ref().ok_or(Refusal::NotFound)?;
        Ok(client.view(kind))
    }
}
