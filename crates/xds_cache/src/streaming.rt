// Clients that keep to a stream, in both variants.
ghost use Rattle.std.specs.Prelude.{◌≡◌, ◌≢◌, false, string_bytes, IfOk, IfErr, Ok, Err};
ghost use Rattle.xds_resource.specs.Types.{types};
ghost use Rattle.xds_resource.specs.declared.refusal.Refusal.{Refusal as RefusalValue};
ghost use Rattle.xds_resource.specs.declared.refusal.Refusal.TheVariants.{OutOfMemory};
ghost use Rattle.xds_cache.specs.Shelves.{wants_some as some_wanted};
ghost use Rattle.xds_cache.specs.Clients.{fresh, shelf as shelf_of, view as view_of, addressing, linked, unlinked, broken_off};
ghost use Rattle.xds_cache.specs.Sends.{first_of, first_requests, is_greeted};
ghost use Rattle.xds_cache.specs.Receives as receives;

use crate::accept::Accept;
use crate::asks::Asks;
use crate::cache::Cache;
use crate::client::Client;
use crate::link::{Down, LinkState, Up};
use std::alloc::Global;
use std::marker::{Model, PhantomData};
use xds_resource::{Refusal, TypeName};

/// A client of one of the two variants, for all types. `A` is its test of what it is sent, `L` says whether it is
/// [`Down`] or [`Up`], and `R` is what it sends.
#[derive(Drop)]
pub struct StreamingClient<A: Accept, L: LinkState, R: Asks> {
    pub(crate) client: Client,
    test: PhantomData<A>,
    link: PhantomData<L>,
    sends: PhantomData<R>,
}

impl<A: Accept, L: LinkState, R: Asks> Model for StreamingClient<A, L, R> {
    ghost use Rattle.xds_cache.specs.Clients as clients;
    ghost use Rattle.xds_cache.specs.Clients.{client_code, IsUsableWhenDown};

    ghost Value = { clients.Client };

    ghost coded = { client_code };

    ghost view = { λ c. c.client };

    ghost invariant = { λ c. IsUsableWhenDown L.IS_UP c.client };
}

impl<A: Accept, L: LinkState, R: Asks> StreamingClient<A, L, R> {
    /// What the client holds of a type.
    pub fn view(&self, kind: TypeName) -> &Cache
        ensures { result.now ≡ view_of self.now kind }
    {
        &self.client.shelf(kind).cache
    }
}

impl<A: Accept, R: Asks> StreamingClient<A, Down, R> {
    /// A client that wants nothing, and says of itself this name and this cluster, which may be empty. It looks at the
    /// cluster nowhere else: which resources the star covers is the server's to decide.
    pub fn new(alloc: Global, node_id: String, cluster: String) -> StreamingClient<A, Down, R>
        ensures { result ≡ fresh (string_bytes node_id) (string_bytes cluster) }
    {
        StreamingClient {
            client: Client::new(alloc, node_id, cluster),
            test: PhantomData,
            link: PhantomData,
            sends: PhantomData,
        }
    }

    // Whether something of a type is wanted.
    fn wants(&self, kind: TypeName) -> bool
        ensures { result ≡ some_wanted (shelf_of self.now kind).wants }
    {
        self.client.wants(kind)
    }

    // The first request of a type on a stream.
    fn first_request(&self, alloc: Global, kind: TypeName, greeted: bool) -> Result<R, Refusal>
        ensures ok { IfOk result (λ q. q ≡ first_of R.opening self.now kind greeted) }
        ensures err { IfErr result (λ e. e ≡ OutOfMemory) }
    {
        let node = self.client.node(alloc, greeted)?;
        R::open(alloc, kind, node, self.client.shelf(kind))
    }

    // The first requests on a stream, in the order of the types, and whether one of them said who asks.
    fn first_requests(&self, alloc: Global) -> Result<(Vec<R>, bool), Refusal>
        ensures requests { IfOk result (λ r. r.0.items ≡ first_requests (first_of R.opening self.now) self.now false types) }
        ensures greeted { IfOk result (λ r. r.1 ≡ is_greeted self.now false types) }
        ensures err { IfErr result (λ e. e ≡ OutOfMemory) }
    {
        let mut requests = Vec::new(alloc);
        let mut greeted = false;
        for kind in TypeName::ALL {
            if !self.wants(kind) {
                continue;
            }
            let request = self.first_request(alloc, kind, greeted)?;
            requests.push(request)?;
            greeted = true;
        }
        Ok((requests, greeted))
    }

    /// On a new stream, with the requests to send there: one of each type that is wanted, in the order of the types; in
    /// delta each with the versions that are held. Where there is no memory for them, the client comes back as it was.
    pub fn connect(
        self,
        alloc: Global,
    ) -> Result<(StreamingClient<A, Up, R>, Vec<R>), StreamingClient<A, Down, R>>
        ensures up { IfOk result (λ r. r.0 ≡ linked (is_greeted self false types) self) }
        ensures requests { IfOk result (λ r. r.1.items ≡ first_requests (first_of R.opening self) self false types) }
        ensures err { IfErr result (λ c. c ≡ self) }
    {
        match self.first_requests(alloc) {
            Ok((requests, greeted)) => {
                let StreamingClient { mut client, .. } = self;
                client.connect(greeted);
                let up = StreamingClient {
                    client,
                    test: PhantomData,
                    link: PhantomData,
                    sends: PhantomData,
                };
                Ok((up, requests))
            }
            Err(_) => Err(self),
        }
    }
}

impl<A: Accept, R: Asks> StreamingClient<A, Up, R> {
    // After a response, with the answer to send. After an `Err` it is as it was.
    fn answer(&mut self, alloc: Global, response: &R::Response) -> Result<R, Refusal>
        ensures ok { IfOk result (λ q. receives.receive (R.delivered A.accepts response.now) self.old (R.url response.now) ≡ Ok (self.new, q)) }
        ensures err { IfErr result (λ e. self.new ≡ self.old) }
        ensures refused { IfErr result (λ e. e ≢ OutOfMemory → receives.receive (R.delivered A.accepts response.now) self.old (R.url response.now) ≡ Err e) }
        ensures unasked { (e : RefusalValue) → addressing self.old (R.url response.now) ≡ Err e → result ≡ Err e }
    {
        let kind = self.client.addressed(R::type_url(response))?;
        let mut shelf = self.client.take_shelf(alloc, kind);
        let answer = R::deliver::<A>(alloc, kind, &mut shelf, response);
        self.client.put_shelf(kind, shelf);
        answer
    }

    // rule: whole-or-nothing
    /// Takes a response whole or rejects it whole, and answers the request that says so: `error_detail` names the
    /// first resource at fault. Refused are: `NoStream` where the client found no memory before, `BadMessage` where it
    /// didn't ask for the type on this stream, and `OutOfMemory`. Then what it holds stays; after `OutOfMemory` it is of
    /// no use any more until the stream is lost.
    pub fn receive(&mut self, alloc: Global, response: &R::Response) -> Result<R, Refusal>
        ensures ok { IfOk result (λ q. receives.receive (R.delivered A.accepts response.now) self.old (R.url response.now) ≡ Ok (self.new, q)) }
        ensures refused { IfErr result (λ e. e ≢ OutOfMemory → (receives.receive (R.delivered A.accepts response.now) self.old (R.url response.now) ≡ Err e) × (self.new ≡ self.old)) }
        ensures unasked { (e : RefusalValue) → addressing self.old (R.url response.now) ≡ Err e → (result ≡ Err e) × (self.new ≡ self.old) }
        ensures memory { result ≡ Err OutOfMemory → self.new ≡ broken_off self.old }
    {
        let answer = self.answer(alloc, response);
        if let Err(Refusal::OutOfMemory) = answer {
            self.client.break_off();
        }
        answer
    }

    /// Once the stream is lost. What is wanted and held stays.
    pub fn lose(self) -> StreamingClient<A, Down, R>
        ensures { result ≡ unlinked self }
    {
        let StreamingClient { mut client, .. } = self;
        client.lose();
        StreamingClient {
            client,
            test: PhantomData,
            link: PhantomData,
            sends: PhantomData,
        }
    }
}
