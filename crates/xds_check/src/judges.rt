// What is kept of the lines of a trace for the rules, for all five types.
ghost use Rattle.std.specs.Prelude.{◌≡◌, ◌<◌, IfOk, IfErr};
ghost use Rattle.xds_resource.specs.declared.refusal.Refusal.TheVariants.{OutOfMemory};
ghost use Rattle.xds_resource.specs.declared.types.TypeName.{TypeName};
ghost use Rattle.xds_resource.specs.PerType.{at, each, per_type};
ghost use Rattle.xds_resource.specs.Stamps.{max_counter};
ghost use Rattle.xds_check.specs.Judges.{nothing_judged, without_stream, TellsOfAll};
ghost use Rattle.xds_check.specs.LiveNames.{AreLive};

use crate::judge::Judge;
use crate::line::Line;
use crate::rule::Rule;
use std::alloc::Global;
use std::marker::Model;
use xds_resource::{Cluster, Endpoint, Listener, Refusal, Route, Secret};

/// What is kept for the rules of each type. Contracts see a record of five.
pub(crate) struct Judges {
    cluster: Judge<Cluster>,
    endpoint: Judge<Endpoint>,
    listener: Judge<Listener>,
    route: Judge<Route>,
    secret: Judge<Secret>,
}

// Written out: docs/PROVING.md, "Drops".
impl Drop for Judges {
    fn drop(self) {
        let Judges {
            cluster: _,
            endpoint: _,
            listener: _,
            route: _,
            secret: _,
        } = self;
    }
}

impl Model for Judges {
    ghost use Rattle.xds_resource.specs.PerType.{PerType, per_type_code};
    ghost use Rattle.xds_check.specs.Judges.{JudgeKept, judge_code};

    ghost Value = { PerType JudgeKept };

    ghost coded = { per_type_code judge_code };

    ghost view = { λ j. record { cluster = j.cluster; endpoint = j.endpoint; listener = j.listener; route = j.route; secret = j.secret } };
}

impl Judges {
    /// Before the first line.
    pub(crate) fn new(alloc: Global) -> Judges
        ensures { result ≡ each nothing_judged }
    {
        Judges {
            cluster: Judge::new(alloc),
            endpoint: Judge::new(alloc),
            listener: Judge::new(alloc),
            route: Judge::new(alloc),
            secret: Judge::new(alloc),
        }
    }

    /// The least rule that a line breaks. Where it breaks none, what it says is kept. Refused only by `OutOfMemory`.
    pub(crate) fn take(&mut self, alloc: Global, line: &Line) -> Result<Option<Rule>, Refusal>
        requires room { (t : TypeName) → (at self.old t).held.changes < max_counter }
        requires live { (t : TypeName) → AreLive (at self.old t).held.entries (at self.old t).live_names }
        ensures told { IfOk result (λ r. TellsOfAll line.now self.old self.new r) }
        ensures refused { IfErr result (λ e. e ≡ OutOfMemory) }
    {
        if let Some(rule) = self.cluster.take(alloc, line)? {
            return Ok(Some(rule));
        }
        if let Some(rule) = self.endpoint.take(alloc, line)? {
            return Ok(Some(rule));
        }
        if let Some(rule) = self.listener.take(alloc, line)? {
            return Ok(Some(rule));
        }
        if let Some(rule) = self.route.take(alloc, line)? {
            return Ok(Some(rule));
        }
        self.secret.take(alloc, line)
    }

    /// Lets go of what is kept of a stream.
    pub(crate) fn let_go(&mut self, stream: u64)
        ensures { self.new ≡ per_type (λ t. without_stream stream (at self.old t)) }
    {
        self.cluster.let_go(stream);
        self.endpoint.let_go(stream);
        self.listener.let_go(stream);
        self.route.let_go(stream);
        self.secret.let_go(stream);
    }
}
