// A client that polls and plays a script.
use crate::caches::script::{Player, first_word, perhaps_answered, type_of};
use std::alloc::Global;
use xds_cache::{Cache, Marked, RestClient};
use xds_cases::cases::words_of;
use xds_message::DiscoveryResponse;
use xds_resource::{Refusal, TypeName};

/// A client whose node id is `7`, and which refuses resources that are marked.
#[derive(Drop)]
pub struct Rest {
    client: RestClient<Marked>,
}

// What the client made of an answer: `taken`, why it rejected it, or the refusal.
fn judged(alloc: Global, answer: Result<Option<String>, Refusal>) -> Result<String, Refusal> {
    match answer {
        Ok(None) => Ok(String::from_str(alloc, "taken")?),
        Ok(Some(fault)) => Ok(fault),
        Err(refusal) => Ok(refusal.to_string(alloc)?),
    }
}

impl Player for Rest {
    fn new(alloc: Global, cluster: &str) -> Result<Rest, Refusal> {
        let node_id = String::from_str(alloc, "7")?;
        let cluster = String::from_str(alloc, cluster)?;
        let client = RestClient::new(alloc, node_id, cluster);
        Ok(Rest { client })
    }

    fn connect(&mut self, _alloc: Global) -> Result<String, Refusal> {
        Err(Refusal::NotFound)
    }

    fn lose(&mut self) -> Result<(), Refusal> {
        Err(Refusal::NotFound)
    }

    fn poll(&self, alloc: Global, kind: TypeName) -> Result<String, Refusal> {
        perhaps_answered(alloc, self.client.request(alloc, kind))
    }

    fn change(&mut self, alloc: Global, kind: TypeName, words: &str) -> Result<String, Refusal> {
        let names = words_of(alloc, words)?;
        match self.client.change(alloc, kind, names.as_slice()) {
            Ok(()) => Ok(String::from_str(alloc, "none")?),
            Err(refusal) => Ok(refusal.to_string(alloc)?),
        }
    }

    // The word of the type, and then the body; none stands for 304.
    fn receive(&mut self, alloc: Global, message: &str) -> Result<String, Refusal> {
        let (word, body) = first_word(message);
        let kind = type_of(word)?;
        if body.is_empty() {
            return judged(alloc, self.client.receive(alloc, kind, None));
        }
        let response = DiscoveryResponse::read(alloc, body.as_bytes())?;
        let answer = self.client.receive(alloc, kind, Some(&response));
        drop(response);
        judged(alloc, answer)
    }

    fn view(&self, kind: TypeName) -> Result<&Cache, Refusal> {
        Ok(self.client.view(kind))
    }
}
