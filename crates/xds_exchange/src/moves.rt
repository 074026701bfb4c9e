// What the ends of a channel do.
ghost use Rattle.std.specs.Prelude.{◌≡◌, [], ◌∷◌, ◌++◌, IfOk, IfSome, IfNone, OnOk, OnErr};
ghost use Rattle.xds_frames.specs.Devices.{MoreFailed};
ghost use Rattle.xds_exchange.specs.Ends.{failed_by, put_by, taken_by, taken_of, AreEnds, IsOf, IsSameEnd, IsSameSource, Begins};

use crate::ends::{Incoming, Outgoing, Taken, Unlinked};
use crate::rule::{Puts, Relay, Roles, Takes, Whole};
use crossbeam_channel::bounded_with;
use std::alloc::{AllocError, Global};
use std::sync::Wait;

/// How many messages a channel holds at most.
pub const CAPACITY: usize = 16;

/// The two ends of a new channel, which holds at most [`CAPACITY`] messages.
pub fn link<T: Drop>(alloc: Global) -> Result<(Outgoing<T>, Incoming<T>), AllocError>
    ensures ends { IfOk result (λ r. AreEnds r.0 r.1) }
    ensures put { IfOk result (λ r. put_by r.0 ≡ []) }
    ensures taken { IfOk result (λ r. taken_by r.1 ≡ []) }
    ensures failed { IfOk result (λ r. failed_by r.0 ≡ 0) }
{
    let (sender, receiver, mut pass) = bounded_with::<Option<T>, _, Relay, Global>(
        alloc, CAPACITY,
    )?;
    let other = sender.another::<Roles>(&mut pass);
    let outgoing = Outgoing {
        sender,
        pass,
        failed: 0,
    };
    let incoming = Incoming {
        receiver,
        pass: other,
    };
    Ok((outgoing, incoming))
}

impl<T: Drop> Outgoing<T> {
    /// Puts an item behind all that were put. It waits while the channel is full. Where it answers `Unlinked` nothing was put,
    /// and one put more has failed. It does so once the other end is gone; no clause says that it does so only then, or that it
    /// does.
    pub fn put<R: Wait>(&mut self, rt: &R, item: T) -> Result<(), Unlinked>
        ensures end { IsSameEnd self.old self.new }
        ensures put { OnOk result (put_by self.new ≡ put_by self.old ++ item ∷ []) }
        ensures err { OnErr result (put_by self.new ≡ put_by self.old) }
        ensures failed { OnErr result (MoreFailed (failed_by self.old) (failed_by self.new)) }
        ensures succeeded { OnOk result (failed_by self.new ≡ failed_by self.old) }
    {
        match self
            .sender
            .send_as::<Puts, R>(rt, &mut self.pass, Some(item))
        {
            Ok(()) => Ok(()),
            Err(_) => {
                self.failed = self.failed.saturating_add(1);
                Err(Unlinked)
            }
        }
    }

    /// How many puts have failed, up to `u64::MAX`.
    pub fn failed(&self) -> u64
        ensures { result ≡ failed_by self.now }
    {
        self.failed
    }

    /// Tells the other end that no item comes any more. This end stays, so that what was put can be compared.
    pub fn end<R: Wait>(&mut self, rt: &R)
        ensures end { IsSameEnd self.old self.new }
        ensures put { put_by self.new ≡ put_by self.old }
        ensures failed { failed_by self.new ≡ failed_by self.old }
    {
        let _ = self.sender.send_as::<Puts, R>(rt, &mut self.pass, None);
    }

    /// What was taken at the other end is a beginning of what was put here.
    pub fn compare(self, other: Taken<T>)
        requires { IsOf self other }
        ensures { Begins (taken_of other) (put_by self) }
    {
        let Outgoing {
            sender,
            mut pass,
            failed: _,
        } = self;
        let Taken { pass: taken } = other;
        sender.absorb::<Roles>(&mut pass, taken);
        sender.learn_as::<Whole>(&mut pass);
    }
}

impl<T: Drop> Incoming<T> {
    /// The next item. It waits while there is none. None once the other end told that no item comes any more, or is gone, and
    /// then nothing was taken; why there is none, no clause says.
    pub fn take<R: Wait>(&mut self, rt: &R) -> Option<T>
        ensures end { IsSameSource self.old self.new }
        ensures taken { IfSome result (λ item. taken_by self.new ≡ taken_by self.old ++ item ∷ []) }
        ensures none { IfNone result (taken_by self.new ≡ taken_by self.old) }
    {
        match self.receiver.recv_as::<Takes, R>(rt, &mut self.pass) {
            Ok(Some(item)) => Some(item),
            Ok(None) => None,
            Err(_) => None,
        }
    }

    /// Leaves the channel, so that what is put finds no other end any more, and keeps what was taken.
    pub fn leave(self) -> Taken<T>
        ensures taken { taken_of result ≡ taken_by self }
        ensures end { (out : _) → AreEnds out self → IsOf out result }
    {
        let Incoming { receiver, pass } = self;
        drop(receiver);
        Taken { pass }
    }
}
