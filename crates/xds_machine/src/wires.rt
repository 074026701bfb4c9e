// What replicas are joined by, whatever it is: lists that are made and taken apart replica by replica.
ghost use Rattle.std.specs.Prelude.{◌≡◌, ◌==◌, ◌↔◌, ◌⊎◌, [], All, OnOk, OnErr, IfOk, IfErr, IsOk, Ok, Err};
ghost use Rattle.std.specs.Result.{result_and};
ghost use Rattle.xds_resource.specs.declared.refusal.Refusal.TheVariants.{OutOfMemory};
ghost use Rattle.xds_machine.specs.Wiring.{Adds, AllChange, GainsSend, GainsTake, Joins, IsAlone, Stays, AreJoined, IsWired};

use std::alloc::{AllocError, Global};
use xds_resource::Refusal;

/// What makes the channels that replicas are joined by.
pub trait Links<I, C, S, T> {
    ghost use Rattle.std.specs.Prelude.{IfOk};
    ghost use Rattle.std.specs.Prelude.{⊤};

    // Which ends belong together.
    ghost linked: { S → T → Type 0 };

    // Which sender of changes belongs to which place where they come from.
    ghost ordered: { I → C → Type 0 } = { λ _ _. ⊤ };

    /// The ends of a new channel for changes of the input.
    fn orders(&self) -> Result<(I, C), AllocError>
        ensures { IfOk result (λ ends. ordered ends.0 ends.1) };

    /// New ends by which one replica tells another.
    fn ends(&self) -> Result<(S, T), AllocError>
        ensures { IfOk result (λ ends. linked ends.0 ends.1) };
}

/// What a replica is started with.
#[derive(Drop)]
pub struct Bound<L, C, S, T> {
    /// Its sockets.
    pub sockets: L,
    /// Where changes of the input come from.
    pub changes: C,
    /// What it tells the other replicas by, one each.
    pub sends: Vec<S>,
    /// What the other replicas tell it by, one each.
    pub takes: Vec<T>,
}

/// The sockets and ends of several replicas, in their order, and the senders of changes of the input.
#[derive(Drop)]
pub struct Wires<L, I, C, S, T> {
    senders: Vec<I>,
    replicas: Vec<Bound<L, C, S, T>>,
}

impl<L: Drop, I: Drop, C: Drop, S: Drop, T: Drop> Wires<L, I, C, S, T> {
    /// Those of no replica.
    pub fn new(alloc: Global) -> Wires<L, I, C, S, T>
        ensures senders { result.senders.items ≡ [] }
        ensures replicas { result.replicas.items ≡ [] }
    {
        Wires {
            senders: Vec::new(alloc),
            replicas: Vec::new(alloc),
        }
    }

    /// A replica more, which isn't joined to the others.
    pub fn add(
        &mut self,
        alloc: Global,
        sockets: L,
        channel: Result<(I, C), AllocError>,
    ) -> Result<(), Refusal>
        ensures channel { OnOk result (IsOk channel) }
        ensures adds { OnOk result (IfOk channel (λ ends. Adds sockets ends.0 ends.1 self.old self.new)) }
        ensures refused { IfErr result (λ e. e ≡ OutOfMemory) }
        ensures err { OnErr result (self.new.replicas.items ≡ self.old.replicas.items) }
    {
        let (sender, changes) = channel?;
        self.senders.push(sender)?;
        self.replicas.push(Bound {
            sockets,
            changes,
            sends: Vec::new(alloc),
            takes: Vec::new(alloc),
        })?;
        Ok(())
    }

    /// Joins a replica to another. They are counted from 0; where one isn't there, nothing is joined.
    pub fn join(
        &mut self,
        from: usize,
        to: usize,
        ends: Result<(S, T), AllocError>,
    ) -> Result<(), Refusal>
        ensures ends { OnOk result (IsOk ends) }
        ensures senders { OnOk result (self.new.senders ≡ self.old.senders) }
        ensures joins { OnOk result (IfOk ends (λ e. Joins from to e.0 e.1 self.old.replicas.items self.new.replicas.items)) }
        ensures refused { IfErr result (λ e. e ≡ OutOfMemory) }
    {
        let (sends, takes) = ends?;
        give(&mut self.replicas, from, sends)?;
        hand(&mut self.replicas, to, takes)
    }

    /// Joins each replica to each other.
    pub fn join_each<M: Links<I, C, S, T>>(&mut self, links: &M) -> Result<(), Refusal>
        requires { All IsAlone self.old.replicas.items }
        ensures senders { OnOk result (self.new.senders ≡ self.old.senders) }
        ensures stay { OnOk result (AllChange (λ _. Stays) self.old.replicas.items self.new.replicas.items) }
        ensures joined { OnOk result (AreJoined M.linked self.new.replicas.items) }
        ensures refused { IfErr result (λ e. e ≡ OutOfMemory) }
    {
        let count = self.replicas.len();
        for from in 0..count {
            for to in 0..count {
                if from != to {
                    self.join(from, to, links.ends())?;
                }
            }
        }
        Ok(())
    }

    /// What changes are sent by, and what the replicas are started with, replica by replica.
    pub fn apart(self) -> (Vec<I>, Vec<Bound<L, C, S, T>>)
        ensures { result ≡ (self.senders, self.replicas) }
    {
        let Wires { senders, replicas } = self;
        (senders, replicas)
    }
}

// Gives a replica an end to tell by, if it is there.
fn give<L: Drop, C: Drop, S: Drop, T: Drop>(
    replicas: &mut Vec<Bound<L, C, S, T>>,
    place: usize,
    sends: S,
) -> Result<(), Refusal>
    ensures gains { OnOk result (AllChange (λ k. GainsSend (k == place) sends) replicas.old.items replicas.new.items) }
    ensures refused { IfErr result (λ e. e ≡ OutOfMemory) }
{
    if let Some(replica) = replicas.get_mut(place) {
        replica.sends.push(sends)?;
    }
    Ok(())
}

// Gives a replica an end to be told by, if it is there.
fn hand<L: Drop, C: Drop, S: Drop, T: Drop>(
    replicas: &mut Vec<Bound<L, C, S, T>>,
    place: usize,
    takes: T,
) -> Result<(), Refusal>
    ensures gains { OnOk result (AllChange (λ k. GainsTake (k == place) takes) replicas.old.items replicas.new.items) }
    ensures refused { IfErr result (λ e. e ≡ OutOfMemory) }
{
    if let Some(replica) = replicas.get_mut(place) {
        replica.takes.push(takes)?;
    }
    Ok(())
}

/// Replicas at these sockets, each joined to each other.
pub fn wired<L: Drop, I: Drop, C: Drop, S: Drop, T: Drop, M: Links<I, C, S, T>>(
    alloc: Global,
    sockets: Vec<L>,
    links: &M,
) -> Result<Wires<L, I, C, S, T>, Refusal>
    ensures ok { IfOk result (IsWired M.ordered M.linked sockets.items) }
    ensures refused { IfErr result (λ e. e ≡ OutOfMemory) }
{
    let mut wires = Wires::new(alloc);
    let mut done = Ok(());
    for sockets in sockets {
        done = both(done, wires.add(alloc, sockets, links.orders()));
    }
    let joined = wires.join_each(links);
    kept(wires, both(done, joined))
}

/// One end of each of two channels, and the two others.
pub fn crossed<O: Drop, I: Drop, P: Drop, J: Drop>(
    one: Result<(O, I), AllocError>,
    other: Result<(P, J), AllocError>,
) -> Result<((O, J), (I, P)), AllocError>
    ensures ok { IfOk result (λ r. (one ≡ Ok (r.0.0, r.1.0)) × (other ≡ Ok (r.1.1, r.0.1))) }
    ensures refused { IfErr result (λ e. (one ≡ Err e) ⊎ (other ≡ Err e)) }
{
    let (out, into) = one?;
    let (back, receipts) = other?;
    Ok(((out, receipts), (into, back)))
}

/// The value, where what was done with it went well.
pub fn kept<V: Drop>(value: V, done: Result<(), Refusal>) -> Result<V, Refusal>
    ensures ok { OnOk done (result ≡ Ok value) }
    ensures err { IfErr done (λ e. result ≡ Err e) }
{
    match done {
        Ok(()) => Ok(value),
        Err(refusal) => Err(refusal),
    }
}

/// Whether both went well, or the first refusal.
pub fn both(first: Result<(), Refusal>, second: Result<(), Refusal>) -> Result<(), Refusal>
    ensures { result ≡ result_and first second }
{
    match first {
        Ok(()) => second,
        Err(refusal) => Err(refusal),
    }
}

/// Whether a thread was started.
pub fn started<H: Drop, F: Drop>(spawned: Result<H, F>) -> Result<(), Refusal>
    ensures ok { IsOk result ↔ IsOk spawned }
    ensures refused { IfErr result (λ e. e ≡ OutOfMemory) }
{
    match spawned {
        Ok(_) => Ok(()),
        Err(_) => Err(Refusal::OutOfMemory),
    }
}
