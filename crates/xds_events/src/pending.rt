// A batch that was joined to the catalogues of all types, for as long as it can be taken back.
ghost use Rattle.std.specs.Prelude.{◌≡◌, false, IfOk, IfErr};
ghost use Rattle.xds_events.specs.Stores.{merged, is_spent};
ghost use Rattle.xds_events.specs.Pendings.{befores, afters, growth};

use crate::catalogues::Catalogues;
use std::alloc::Global;
use std::marker::Model;
use xds_catalogue::PendingJoin;
use xds_message::Batch;
use xds_resource::{Cluster, Endpoint, Listener, Route, Secret};
use xds_sessions::Published;

#[derive(Drop)]
pub(crate) struct Pending {
    cluster: PendingJoin<Cluster>,
    endpoint: PendingJoin<Endpoint>,
    listener: PendingJoin<Listener>,
    route: PendingJoin<Route>,
    secret: PendingJoin<Secret>,
    alloc: Global,
}

impl Model for Pending {
    ghost use Rattle.xds_resource.specs.PerType.{PerType, per_type_code};
    ghost use Rattle.xds_catalogue.specs.Pending.{pending_code};
    ghost use Rattle.xds_catalogue.specs.Pending as catalogue;

    ghost Value = { PerType catalogue.Pending };

    ghost coded = { per_type_code pending_code };

    ghost view = { λ p. record { cluster = p.cluster; endpoint = p.endpoint; listener = p.listener; route = p.route; secret = p.secret } };
}

impl Pending {
    // rule: refused-event
    /// Joins a batch, all or none. Where there is no memory, the catalogues come back as they were.
    pub(crate) fn start(
        alloc: Global,
        held: Catalogues,
        batch: Batch,
    ) -> Result<Pending, Catalogues>
        requires { is_spent held batch ≡ false }
        ensures ok { IfOk result (λ p. (befores p ≡ held) × (afters p ≡ merged held batch)) }
        ensures err { IfErr result (λ c. c ≡ held) }
    {
        let Catalogues {
            cluster,
            endpoint,
            listener,
            route,
            secret,
        } = held;
        let (clusters, endpoints, listeners, routes, secrets) = batch.into_lists();
        let cluster = match cluster.start_join(clusters) {
            Ok(pending) => pending,
            Err(cluster) => {
                return Err(Catalogues {
                    cluster,
                    endpoint,
                    listener,
                    route,
                    secret,
                });
            }
        };
        let endpoint = match endpoint.start_join(endpoints) {
            Ok(pending) => pending,
            Err(endpoint) => {
                return Err(Catalogues {
                    cluster: Published::of(alloc, cluster.take_back()),
                    endpoint,
                    listener,
                    route,
                    secret,
                });
            }
        };
        let listener = match listener.start_join(listeners) {
            Ok(pending) => pending,
            Err(listener) => {
                return Err(Catalogues {
                    cluster: Published::of(alloc, cluster.take_back()),
                    endpoint: Published::of(alloc, endpoint.take_back()),
                    listener,
                    route,
                    secret,
                });
            }
        };
        let route = match route.start_join(routes) {
            Ok(pending) => pending,
            Err(route) => {
                return Err(Catalogues {
                    cluster: Published::of(alloc, cluster.take_back()),
                    endpoint: Published::of(alloc, endpoint.take_back()),
                    listener: Published::of(alloc, listener.take_back()),
                    route,
                    secret,
                });
            }
        };
        match secret.start_join(secrets) {
            Ok(secret) => Ok(Pending {
                cluster,
                endpoint,
                listener,
                route,
                secret,
                alloc,
            }),
            Err(secret) => Err(Catalogues {
                cluster: Published::of(alloc, cluster.take_back()),
                endpoint: Published::of(alloc, endpoint.take_back()),
                listener: Published::of(alloc, listener.take_back()),
                route: Published::of(alloc, route.take_back()),
                secret,
            }),
        }
    }

    /// By how much the changes grow, over all types.
    pub(crate) fn grown(&self) -> u128
        ensures { result ≡ growth self.now }
    {
        self.cluster.grown() as u128
            + self.endpoint.grown() as u128
            + self.listener.grown() as u128
            + self.route.grown() as u128
            + self.secret.grown() as u128
    }

    /// The catalogues with the batch.
    pub(crate) fn finish(self) -> Catalogues
        ensures { result ≡ afters self }
    {
        Catalogues {
            cluster: Published::of(self.alloc, self.cluster.finish()),
            endpoint: Published::of(self.alloc, self.endpoint.finish()),
            listener: Published::of(self.alloc, self.listener.finish()),
            route: Published::of(self.alloc, self.route.finish()),
            secret: Published::of(self.alloc, self.secret.finish()),
        }
    }
}
