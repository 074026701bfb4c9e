// What a client keeps of one type.
ghost use Rattle.std.specs.Prelude.{◌≡◌, true, false, [], Some, if◌then◌else◌, IfOk, IfErr, OnOk, OnErr};
ghost use Rattle.std.specs.FinMap as finmap;
ghost use Rattle.xds_resource.specs.declared.refusal.Refusal.TheVariants.{OutOfMemory};
ghost use Rattle.xds_resource.specs.Names.{put_all, put_some};
ghost use Rattle.xds_cache.specs.Shelves.{bare, kept_of, wanting as wanting_now, connected, lost};
ghost use Rattle.xds_cache.specs.Deliveries.{cache_after as shown_after};
ghost use Rattle.xds_cache.specs.Parts.{left as left_by, added as added_by};
ghost use Rattle.xds_cache.specs.InPlace.{IsPruned};

use crate::cache::Cache;
use crate::holding::Holding;
use crate::in_place::change;
use crate::wants::{Wants, is_wanted, wants_some};
use std::alloc::Global;
use std::marker::Model;
use xds_resource::{NameMap, Refusal, TypeName};

/// What a client wants of a type, what it holds, and how far its stream is.
pub struct Shelf {
    pub wants: Wants,
    pub cache: Cache,
    /// The nonce of the last response of the type on this stream.
    pub nonce: String,
    /// The version that was accepted last, in state of the world.
    pub accepted: String,
    /// Whether the type was asked for on this stream.
    pub asked: bool,
    // The type for which all that is held is wanted, if one is known. Then a response of it that isn't the whole is
    // taken by a look at the names of which it speaks alone. It decides nothing, and contracts don't see it.
    pruned: Option<TypeName>,
}

// Written out: docs/PROVING.md, "Drops".
impl Drop for Shelf {
    fn drop(self) {
        let Shelf {
            wants: _,
            cache: _,
            nonce: _,
            accepted: _,
            asked: _,
            pruned: _,
        } = self;
    }
}

impl Model for Shelf {
    ghost use Rattle.std.specs.Prelude.{string_bytes};
    ghost use Rattle.xds_cache.specs.Shelves as shelves;
    ghost use Rattle.xds_cache.specs.Shelves.{shelf_code};
    ghost use Rattle.xds_cache.specs.InPlace.{IsPruned};

    ghost Value = { shelves.Shelf };

    ghost coded = { shelf_code };

    ghost view = { λ s. record {
      wants = s.wants;
      cache = s.cache;
      nonce = string_bytes s.nonce;
      accepted = string_bytes s.accepted;
      asked = s.asked;
    } };

    ghost invariant = { λ s. IsPruned s.pruned s.wants s.cache };
}

// Puts a value in the place of another. Of a type parameter, a drop is one step to the proof.
fn put<V: Drop>(place: &mut V, value: V)
    ensures { place.new ≡ value }
{
    *place = value;
}

// Puts a copy of what is held of a name.
fn put_copy(alloc: Global, next: &mut Cache, name: &str, holding: &Holding) -> Result<(), Refusal>
    ensures ok { OnOk result (next.new ≡ put_some next.old name.now (Some holding.now)) }
    ensures err { IfErr result (λ e. e ≡ OutOfMemory) }
{
    let copy = holding.try_copy()?;
    next.put(alloc, name, Some(copy))
}

// Puts what is left of a name that was held, beside a response that is the whole or not, and removes these names.
fn put_left(
    alloc: Global,
    kind: TypeName,
    wants: &Wants,
    whole: bool,
    removed: &Wants,
    next: &mut Cache,
    name: &str,
    holding: &Holding,
) -> Result<(), Refusal>
    ensures ok { OnOk result (next.new ≡ put_some next.old name.now (left_by kind wants.now whole removed.now name.now holding.now)) }
    ensures err { IfErr result (λ e. e ≡ OutOfMemory) }
{
    if is_wanted(kind, wants, name) && !(whole || removed.contains(name)) {
        put_copy(alloc, next, name, holding)
    } else {
        Ok(())
    }
}

// Puts what is held of a name that a response states.
fn put_added(
    alloc: Global,
    kind: TypeName,
    wants: &Wants,
    next: &mut Cache,
    name: &str,
    holding: &Holding,
) -> Result<(), Refusal>
    ensures ok { OnOk result (next.new ≡ put_some next.old name.now (added_by kind wants.now name.now holding.now)) }
    ensures err { IfErr result (λ e. e ≡ OutOfMemory) }
{
    if is_wanted(kind, wants, name) {
        put_copy(alloc, next, name, holding)
    } else {
        Ok(())
    }
}

// rule: whole-response
// What is left of what was held.
fn left(
    alloc: Global,
    kind: TypeName,
    wants: &Wants,
    whole: bool,
    removed: &Wants,
    cache: &Cache,
) -> Result<Cache, Refusal>
    ensures ok { IfOk result (λ m. m ≡ put_all (left_by kind wants.now whole removed.now) finmap.empty (finmap.entries cache.now)) }
    ensures err { IfErr result (λ e. e ≡ OutOfMemory) }
{
    let mut next = Cache::new(alloc);
    for (name, holding) in cache.iter() {
        put_left(alloc, kind, wants, whole, removed, &mut next, name, holding)?;
    }
    Ok(next)
}

// What is held once what a response states is added to what is left.
fn added(
    alloc: Global,
    kind: TypeName,
    wants: &Wants,
    stated: &NameMap<Holding>,
    beside: Cache,
) -> Result<Cache, Refusal>
    ensures ok { IfOk result (λ m. m ≡ put_all (added_by kind wants.now) beside (finmap.entries stated.now)) }
    ensures err { IfErr result (λ e. e ≡ OutOfMemory) }
{
    let mut next = beside;
    for (name, holding) in stated.iter() {
        put_added(alloc, kind, wants, &mut next, name, holding)?;
    }
    Ok(next)
}

// rule: whole-response
// What is held after a response that states this, is the whole or not, and removes these names.
fn cache_after(
    alloc: Global,
    kind: TypeName,
    wants: &Wants,
    whole: bool,
    removed: &Wants,
    stated: &NameMap<Holding>,
    cache: &Cache,
) -> Result<Cache, Refusal>
    ensures ok { IfOk result (λ m. m ≡ shown_after kind wants.now whole removed.now stated.now cache.now) }
    ensures err { IfErr result (λ e. e ≡ OutOfMemory) }
{
    let beside = left(alloc, kind, wants, whole, removed, cache)?;
    let next = added(alloc, kind, wants, stated, beside)?;
    Ok(next)
}

// What is still held once these are wanted.
fn kept(alloc: Global, kind: TypeName, wants: &Wants, cache: &Cache) -> Result<Cache, Refusal>
    ensures ok { IfOk result (λ m. m ≡ kept_of kind wants.now cache.now) }
    ensures err { IfErr result (λ e. e ≡ OutOfMemory) }
{
    let nothing = NameMap::new(alloc);
    let next = left(alloc, kind, wants, false, &nothing, cache)?;
    Ok(next)
}

// Whether a response can be taken by a look at the names of which it speaks alone: it isn't the whole, and all that is
// held is known to be wanted.
fn is_partial(kind: TypeName, whole: bool, pruned: Option<TypeName>) -> bool
    ensures whole { result ≡ true → whole ≡ false }
    ensures pruned { result ≡ true → pruned ≡ Some kind }
{
    match pruned {
        Some(known) => !whole && known == kind,
        None => false,
    }
}

// rule: whole-or-nothing
// Makes what is held what it is after a response that states this, is the whole or not, and removes these names: all or
// nothing.
fn change_cache(
    alloc: Global,
    kind: TypeName,
    wants: &Wants,
    pruned: Option<TypeName>,
    cache: &mut Cache,
    whole: bool,
    removed: &Wants,
    stated: NameMap<Holding>,
) -> Result<(), Refusal>
    requires { IsPruned pruned wants.now cache.now }
    ensures ok { OnOk result (cache.new ≡ shown_after kind wants.now whole removed.now stated cache.old) }
    ensures same { OnErr result (cache.new ≡ cache.old) }
    ensures err { IfErr result (λ e. e ≡ OutOfMemory) }
{
    if is_partial(kind, whole, pruned) {
        return change(alloc, kind, wants, cache, removed, stated);
    }
    let next = cache_after(alloc, kind, wants, whole, removed, &stated, cache)?;
    put(cache, next);
    Ok(())
}

impl Shelf {
    /// The shelf of a client that wants nothing.
    pub fn new(alloc: Global) -> Shelf
        ensures { result ≡ bare }
    {
        Shelf {
            wants: NameMap::new(alloc),
            cache: Cache::new(alloc),
            nonce: String::new(alloc),
            accepted: String::new(alloc),
            asked: false,
            pruned: None,
        }
    }

    /// Once the client wants these, and asked for them or not.
    pub fn wanting(
        &self,
        alloc: Global,
        kind: TypeName,
        wants: Wants,
        asked: bool,
    ) -> Result<Shelf, Refusal>
        ensures ok { IfOk result (λ s. s ≡ wanting_now kind wants asked self.now) }
        ensures err { IfErr result (λ e. e ≡ OutOfMemory) }
    {
        let cache = kept(alloc, kind, &wants, &self.cache)?;
        Ok(Shelf {
            wants,
            cache,
            nonce: String::from_str(alloc, self.nonce.as_str())?,
            accepted: String::from_str(alloc, self.accepted.as_str())?,
            asked,
            pruned: Some(kind),
        })
    }

    // rule: whole-or-nothing
    /// After a response of this nonce that is taken as this version: it states this, is the whole or not, and removes
    /// these names. All or nothing.
    pub fn state(
        &mut self,
        alloc: Global,
        kind: TypeName,
        whole: bool,
        removed: &Wants,
        stated: NameMap<Holding>,
        nonce: &str,
        version: &str,
    ) -> Result<(), Refusal>
        ensures ok { OnOk result (self.new ≡ record self.old { cache = shown_after kind self.old.wants whole removed.now stated self.old.cache; nonce = nonce.now; accepted = version.now }) }
        ensures same { OnErr result (self.new ≡ self.old) }
        ensures err { IfErr result (λ e. e ≡ OutOfMemory) }
    {
        let nonce = String::from_str(alloc, nonce)?;
        let accepted = String::from_str(alloc, version)?;
        let pruned = self.pruned;
        change_cache(
            alloc,
            kind,
            &self.wants,
            pruned,
            &mut self.cache,
            whole,
            removed,
            stated,
        )?;
        put(&mut self.nonce, nonce);
        put(&mut self.accepted, accepted);
        self.pruned = Some(kind);
        Ok(())
    }

    // rule: accept-reject, rule: whole-or-nothing
    /// After a response of this nonce that is rejected. All or nothing.
    pub fn reject(&mut self, alloc: Global, nonce: &str) -> Result<(), Refusal>
        ensures ok { OnOk result (self.new ≡ record self.old { nonce = nonce.now }) }
        ensures same { OnErr result (self.new ≡ self.old) }
        ensures err { IfErr result (λ e. e ≡ OutOfMemory) }
    {
        let nonce = String::from_str(alloc, nonce)?;
        put(&mut self.nonce, nonce);
        Ok(())
    }

    // rule: whole-or-nothing
    /// After a response of this nonce that is rejected, or else taken as this version: it states this, is the whole or
    /// not, and removes these names. All or nothing.
    pub fn settle(
        &mut self,
        alloc: Global,
        kind: TypeName,
        rejects: bool,
        whole: bool,
        removed: &Wants,
        stated: NameMap<Holding>,
        nonce: &str,
        version: &str,
    ) -> Result<(), Refusal>
        ensures ok { OnOk result (self.new ≡ (if rejects then record self.old { nonce = nonce.now }
            else record self.old { cache = shown_after kind self.old.wants whole removed.now stated self.old.cache; nonce = nonce.now; accepted = version.now })) }
        ensures same { OnErr result (self.new ≡ self.old) }
        ensures err { IfErr result (λ e. e ≡ OutOfMemory) }
    {
        if rejects {
            return self.reject(alloc, nonce);
        }
        self.state(alloc, kind, whole, removed, stated, nonce, version)
    }

    /// After an answer to a poll that is taken as this version: it states this, is the whole or not, and removes these
    /// names. All or nothing.
    pub fn poll(
        &mut self,
        alloc: Global,
        kind: TypeName,
        whole: bool,
        removed: &Wants,
        stated: NameMap<Holding>,
        version: &str,
    ) -> Result<(), Refusal>
        ensures ok { OnOk result (self.new ≡ record self.old { cache = shown_after kind self.old.wants whole removed.now stated self.old.cache; nonce = []; accepted = version.now; asked = false }) }
        ensures same { OnErr result (self.new ≡ self.old) }
        ensures err { IfErr result (λ e. e ≡ OutOfMemory) }
    {
        self.state(alloc, kind, whole, removed, stated, "", version)?;
        self.asked = false;
        Ok(())
    }

    /// Begins a stream, on which everything that is wanted is asked for.
    pub fn connect(&mut self)
        ensures { self.new ≡ connected self.old }
    {
        self.nonce.clear();
        self.asked = wants_some(&self.wants);
    }

    /// Once the stream is lost.
    pub fn lose(&mut self)
        ensures { self.new ≡ lost self.old }
    {
        self.nonce.clear();
        self.asked = false;
    }
}
