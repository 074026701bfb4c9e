// What a replica tells a peer: all that changed since the last time.
ghost use Rattle.std.specs.Prelude.{◌≡◌, length, IfOk, IfErr, OnErr};
ghost use Rattle.xds_resource.specs.PerType.{each};
ghost use Rattle.xds_core.specs.Counts.{counts_of};
ghost use Rattle.xds_core.specs.Since.{marks_of};
ghost use Rattle.xds_core.specs.Stores.{grown, all_entries};
ghost use Rattle.xds_exchange.specs.Merges.{AllMerged, IsStopped};
ghost use Rattle.xds_exchange.specs.Rounds.{Knows, told, IsKept, AreTaken, HasAll};
ghost use Rattle.xds_catalogue.specs.Holdings.{IsCatalogue, IsNumbered};
ghost use Rattle.xds_resource.specs.declared.refusal.Refusal.TheVariants.{OutOfMemory};

use crate::merging::apply_all;
use crate::outbox::Outbox;
use crate::outcome::Round;
use std::alloc::Global;
use std::marker::Model;
use std::mem;
use xds_catalogue::Catalogue;
use xds_core::{Core, Marks};
use xds_resource::{Refusal, ResourceType};

/// What a peer was told: for each type, the count of changes up to which it was told all.
pub struct PeerMarks {
    marks: Marks,
}

// Written out: docs/PROVING.md, "Drops".
impl Drop for PeerMarks {
    fn drop(self) {
        let PeerMarks { marks: _ } = self;
    }
}

impl Model for PeerMarks {
    ghost use Rattle.std.specs.Prelude.{ℕ};
    ghost use Rattle.std.specs.Coded.{coded_ℕ};
    ghost use Rattle.xds_resource.specs.PerType.{PerType, per_type_code};
    ghost use Rattle.xds_core.specs.Counts.{counts_of};

    ghost Value = { PerType ℕ };

    ghost coded = { per_type_code coded_ℕ };

    ghost view = { λ p. counts_of p.marks };
}

impl PeerMarks {
    // rule: marks
    /// A peer that was told nothing.
    pub fn new() -> PeerMarks
        ensures { result ≡ each 0 }
    {
        PeerMarks {
            marks: Marks {
                cluster: 0,
                endpoint: 0,
                listener: 0,
                route: 0,
                secret: 0,
            },
        }
    }

    /// The counts of changes up to which the peer was told all.
    pub fn marks(&self) -> Marks
        ensures { counts_of result ≡ self.now }
    {
        self.marks
    }
}

// rule: marks
/// Tells a replica what changed at another since the last time, part by part. Where the one knew all else, it holds
/// afterwards what the merge of all entries of the other would have left, and knows all. On a refusal, which is that of
/// a merge or `OutOfMemory`, the parts before it are merged, and all is told again the next time.
///
/// What the one knew it still knows after further events at either replica, so that the next round has its premise
/// (`laws::tellers_may_write`, `laws::hearers_may_write`).
pub fn round(
    alloc: Global,
    from: &Core,
    to: &mut Core,
    peer: &mut PeerMarks,
) -> Result<Round, Refusal>
    ensures sent { IfOk result (λ r. r.sent ≡ length (told from.now.store peer.old)) }
    ensures merged { IfOk result
        (λ r. AllMerged to.old (told from.now.store peer.old) r.parts r.grown to.new) }
    ensures marks { IfOk result (λ r. peer.new ≡ marks_of from.now.store) }
    ensures stopped { IfErr result
        (λ e. IsStopped to.old (told from.now.store peer.old) e to.new) }
    ensures lost { OnErr result (peer.new ≡ each 0) }
    ensures all { Knows from.now.store peer.old to.old.store
        → IfOk result (λ r. HasAll from.now.store to.old.store to.new.store) }
    ensures grown { Knows from.now.store peer.old to.old.store
        → IfOk result (λ r. r.grown ≡ grown to.old.store (all_entries from.now.store)) }
    ensures knows { Knows from.now.store peer.old to.old.store
        → Knows from.now.store peer.new to.new.store }
    ensures taken { AreTaken from.now.store peer.new }
{
    held_is_kept(from);
    held_is_kept(to);
    exchange(alloc, from, to, peer)
}

// One round, whatever was known.
// rule: marks
fn exchange(
    alloc: Global,
    from: &Core,
    to: &mut Core,
    peer: &mut PeerMarks,
) -> Result<Round, Refusal>
    ensures sent { IfOk result (λ r. r.sent ≡ length (told from.now.store peer.old)) }
    ensures merged { IfOk result
        (λ r. AllMerged to.old (told from.now.store peer.old) r.parts r.grown to.new) }
    ensures marks { IfOk result (λ r. peer.new ≡ marks_of from.now.store) }
    ensures stopped { IfErr result
        (λ e. IsStopped to.old (told from.now.store peer.old) e to.new) }
    ensures lost { OnErr result (peer.new ≡ each 0) }
{
    let marks = mem::replace(peer, PeerMarks::new()).marks();
    let mut outbox = changed_since(alloc, from, marks)?;
    let sent = outbox.len();
    let (parts, grown) = apply_all(to, &mut outbox)?;
    peer.marks = from.marks();
    Ok(Round { sent, parts, grown })
}

// rule: marks
// What changed at a replica since then, to be sent.
fn changed_since(alloc: Global, from: &Core, marks: Marks) -> Result<Outbox, Refusal>
    ensures ok { IfOk result (λ o. o ≡ told from.now.store (counts_of marks)) }
    ensures refused { IfErr result (λ e. e ≡ OutOfMemory) }
{
    let batch = from.catalogues().since(alloc, marks)?;
    let mut outbox = Outbox::new(alloc);
    outbox.fill(batch)?;
    Ok(outbox)
}

// What a replica holds stands under its own names, each with a number.
fn held_is_kept(core: &Core)
    ensures { IsKept core.now.store }
{
    let held = core.catalogues();
    catalogue_is_kept(held.cluster.catalogue());
    catalogue_is_kept(held.endpoint.catalogue());
    catalogue_is_kept(held.listener.catalogue());
    catalogue_is_kept(held.route.catalogue());
    catalogue_is_kept(held.secret.catalogue());
}

// The same of what one type's catalogue holds. It looks at a name and a number that nothing has.
fn catalogue_is_kept<T: ResourceType>(catalogue: &Catalogue<T>)
    ensures named { IsCatalogue catalogue.now.entries }
    ensures numbered { IsNumbered catalogue.now }
{
    let _ = catalogue.get("");
    let _ = catalogue.next_change(u64::MAX);
}
