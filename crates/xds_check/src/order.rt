// Whether the lines of a trace stand in an order that a replica can make.
ghost use Rattle.std.specs.Prelude.{◌≡◌, IfErr, OnOk};
ghost use Rattle.xds_resource.specs.declared.refusal.Refusal.TheVariants.{OutOfMemory};
ghost use Rattle.xds_check.specs.Orders.{nothing_kept, is_open_in, may_speak_in, may_follow_in, kept_after};

use crate::line::Line;
use std::alloc::Global;
use std::marker::Model;
use xds_catalogue::ByNumber;
use xds_resource::Refusal;

/// What the lines so far say of streams: whether each is open, and whether it is one of delta.
pub(crate) struct StreamOrder {
    open: ByNumber<bool>,
    delta: ByNumber<bool>,
}

// Written out: docs/PROVING.md, "Drops".
impl Drop for StreamOrder {
    fn drop(self) {
        let StreamOrder { open: _, delta: _ } = self;
    }
}

impl Model for StreamOrder {
    ghost use Rattle.xds_check.specs.Orders.{OrderKept, order_kept_code};

    ghost Value = { OrderKept };

    ghost coded = { order_kept_code };

    ghost view = { λ o. record { opened = o.open; delta = o.delta } };
}

impl StreamOrder {
    /// Before the first line.
    pub(crate) fn new(alloc: Global) -> StreamOrder
        ensures { result ≡ nothing_kept }
    {
        StreamOrder {
            open: ByNumber::new(alloc),
            delta: ByNumber::new(alloc),
        }
    }

    fn is_open(&self, stream: u64) -> bool
        ensures { result ≡ is_open_in self.now stream }
    {
        match self.open.get(stream) {
            Some(open) => *open,
            None => false,
        }
    }

    // rule: first-variant
    // Whether a message of the variant may come on the stream.
    fn may_speak(&self, stream: u64, delta: bool) -> bool
        ensures { result ≡ may_speak_in self.now stream delta }
    {
        if !self.is_open(stream) {
            return false;
        }
        match self.delta.get(stream) {
            Some(known) => *known == delta,
            None => true,
        }
    }

    /// Whether the line may come next.
    pub(crate) fn may_follow(&self, line: &Line) -> bool
        ensures { result ≡ may_follow_in self.now line.now }
    {
        match line {
            Line::Write(_) => true,
            Line::Open(stream) => self.open.get(*stream).is_none(),
            Line::Close(stream) => self.is_open(*stream),
            Line::Request(stream, asking) => self.may_speak(*stream, asking.variant().is_delta()),
            Line::Response(stream, answer) => self.may_speak(*stream, answer.variant().is_delta()),
            Line::Idle(stream, _) => self.is_open(*stream),
        }
    }

    /// Takes the line. Refused only by `OutOfMemory`.
    pub(crate) fn take(&mut self, line: &Line) -> Result<(), Refusal>
        ensures ok { OnOk result (self.new ≡ kept_after self.old line.now) }
        ensures refused { IfErr result (λ e. e ≡ OutOfMemory) }
    {
        match line {
            Line::Write(_) => Ok(()),
            Line::Open(stream) => self.open.insert(*stream, true),
            Line::Close(stream) => self.open.insert(*stream, false),
            Line::Request(stream, asking) => self
                .delta
                .insert(*stream, asking.variant().is_delta()),
            Line::Response(stream, answer) => self
                .delta
                .insert(*stream, answer.variant().is_delta()),
            Line::Idle(_, _) => Ok(()),
        }
    }
}
