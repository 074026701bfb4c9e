// Clients that poll.
ghost use Rattle.std.specs.Prelude.{◌≡◌, ◌≢◌, [], map, true, false, Some, None, if◌then◌else◌, string_bytes, IfOk, IfErr, OnOk, Ok, Err};
ghost use Rattle.std.specs.Option.{option_map};
ghost use Rattle.xds_resource.specs.declared.refusal.Refusal.TheVariants.{OutOfMemory};
ghost use Rattle.xds_message.specs.Responses.{response_of};
ghost use Rattle.xds_cache.specs.Shelves.{wants_of as set_of, wants_some as some_wanted};
ghost use Rattle.xds_cache.specs.Clients.{fresh, shelf as shelf_of, view as view_of};
ghost use Rattle.xds_cache.specs.Rest.{rest_request, rest_asking, rest_changed, rest_receive, rest_answered, answers_poll, has_body};

use crate::accept::Accept;
use crate::cache::Cache;
use crate::client::Client;
use crate::judged::Judged;
use crate::sotw_response::judged;
use crate::wants::{texts_of, wants_of};
use std::alloc::Global;
use std::marker::{Model, PhantomData};
use xds_message::{DiscoveryRequest, DiscoveryResponse};
use xds_resource::{Refusal, TypeName};

/// A client that polls, for all types. `A` is its test of what it is sent. It has no stream: each poll of a type is one request
/// and its answer.
pub struct RestClient<A: Accept> {
    client: Client,
    test: PhantomData<A>,
}

// Written out: docs/PROVING.md, "Drops".
impl<A: Accept> Drop for RestClient<A> {
    fn drop(self) {
        let RestClient { client: _, test: _ } = self;
    }
}

impl<A: Accept> Model for RestClient<A> {
    ghost use Rattle.xds_cache.specs.Clients as clients;
    ghost use Rattle.xds_cache.specs.Clients.{client_code};

    ghost Value = { clients.Client };

    ghost coded = { client_code };

    ghost view = { λ c. c.client };
}

impl<A: Accept> RestClient<A> {
    /// A client that wants nothing, and says of itself this name and this cluster, which may be empty. It looks at the
    /// cluster nowhere else: which resources the star covers is the server's to decide.
    pub fn new(alloc: Global, node_id: String, cluster: String) -> RestClient<A>
        ensures { result ≡ fresh (string_bytes node_id) (string_bytes cluster) }
    {
        RestClient {
            client: Client::new(alloc, node_id, cluster),
            test: PhantomData,
        }
    }

    /// What the client holds of a type.
    pub fn view(&self, kind: TypeName) -> &Cache
        ensures { result.now ≡ view_of self.now kind }
    {
        &self.client.shelf(kind).cache
    }

    // rule: not-modified
    // What a poll of a type asks for.
    fn asking(&self, alloc: Global, kind: TypeName) -> Result<DiscoveryRequest, Refusal>
        ensures ok { IfOk result (λ q. q ≡ rest_asking self.now kind) }
        ensures err { IfErr result (λ e. e ≡ OutOfMemory) }
    {
        let shelf = self.client.shelf(kind);
        Ok(DiscoveryRequest {
            version_info: String::from_str(alloc, shelf.accepted.as_str())?,
            node: self.client.node(alloc, false)?,
            resource_names: texts_of(alloc, &shelf.wants)?,
            type_url: String::from_str(alloc, kind.url())?,
            response_nonce: String::new(alloc),
            error_detail: None,
        })
    }

    /// The request of a poll of a type: all that is wanted, who asks, and the version that was taken last since this is
    /// wanted. None where nothing of the type is wanted, which takes no memory. Refused is only `OutOfMemory`.
    pub fn request(
        &self,
        alloc: Global,
        kind: TypeName,
    ) -> Result<Option<DiscoveryRequest>, Refusal>
        ensures ok { IfOk result (λ q. q ≡ rest_request self.now kind) }
        ensures nothing { some_wanted (shelf_of self.now kind).wants ≡ false → result ≡ Ok None }
        ensures err { IfErr result (λ e. e ≡ OutOfMemory) }
    {
        if !self.client.wants(kind) {
            return Ok(None);
        }
        let request = self.asking(alloc, kind)?;
        Ok(Some(request))
    }

    // rule: not-modified
    /// Sets what the client wants of a type, drops what it wants no longer, and forgets the version that it kept. `*` in a
    /// list of a complete type is the star. Refused is only `OutOfMemory`; then nothing changed.
    pub fn change(&mut self, alloc: Global, kind: TypeName, names: &[String]) -> Result<(), Refusal>
        ensures ok { OnOk result (self.new ≡ rest_changed kind (set_of (map string_bytes names.now)) self.old) }
        ensures err { IfErr result (λ e. self.new ≡ self.old) }
        ensures refused { IfErr result (λ e. e ≡ OutOfMemory) }
    {
        let wants = wants_of(alloc, names)?;
        let shelf = self.client.shelf(kind);
        let mut next = shelf.wanting(alloc, kind, wants, false)?;
        next.nonce.clear();
        next.accepted.clear();
        self.client.put_shelf(kind, next);
        Ok(())
    }

    // Whether a body of this type URL answers a poll of a type.
    fn is_polled(&self, kind: TypeName, type_url: &str) -> bool
        ensures { result ≡ answers_poll self.now kind type_url.now }
    {
        self.client.wants(kind) && type_url == kind.url()
    }

    // rule: whole-or-nothing
    // Takes the body of an answer to a poll of a type, or rejects it. After an `Err` the client is as it was.
    fn take(
        &mut self,
        alloc: Global,
        kind: TypeName,
        response: &DiscoveryResponse,
    ) -> Result<Option<String>, Refusal>
        ensures ok { IfOk result (λ f. rest_answered A.accepts self.old kind (response_of response.now) ≡ (self.new, option_map string_bytes f)) }
        ensures err { IfErr result (λ e. self.new ≡ self.old) }
        ensures refused { IfErr result (λ e. e ≡ OutOfMemory) }
    {
        let Judged {
            fault,
            removed,
            stated,
        } = judged::<A>(alloc, kind, response)?;
        if fault.is_some() {
            return Ok(fault);
        }
        let version = response.version_info.as_str();
        self.client.poll(alloc, kind, &removed, stated, version)?;
        Ok(None)
    }

    // rule: whole-or-nothing, rule: not-modified
    /// Takes the answer to a poll of a type: the body of a 200 is taken whole or rejected whole, and of one that is rejected
    /// it answers why, for the first resource at fault. No body stands for 304, by which nothing changed. Refused are:
    /// `BadMessage` where the body is of another type, or nothing of the type is wanted, so that it wasn't asked for; and
    /// `OutOfMemory`, of a body alone. Then, and where it rejects, the client is as it was, and goes on.
    pub fn receive(
        &mut self,
        alloc: Global,
        kind: TypeName,
        body: Option<&DiscoveryResponse>,
    ) -> Result<Option<String>, Refusal>
        ensures ok { IfOk result (λ f. rest_receive A.accepts self.old kind (option_map (λ r. response_of r.now) body.entry) ≡ Ok (self.new, option_map string_bytes f)) }
        ensures err { IfErr result (λ e. self.new ≡ self.old) }
        ensures refused { IfErr result (λ e. e ≢ OutOfMemory → rest_receive A.accepts self.old kind (option_map (λ r. response_of r.now) body.entry) ≡ Err e) }
        ensures memory { result ≡ Err OutOfMemory → has_body self.old kind (option_map (λ r. response_of r.now) body.entry) ≡ true }
    {
        match body {
            Some(response) => {
                if !self.is_polled(kind, response.type_url.as_str()) {
                    return Err(Refusal::BadMessage);
                }
                self.take(alloc, kind, response)
            }
            None => {
                if !self.client.wants(kind) {
                    return Err(Refusal::BadMessage);
                }
                Ok(None)
            }
        }
    }
}
