// The two ends of a channel.
ghost use Rattle.std.specs.Prelude.{◌≡◌, true};
ghost use Rattle.crossbeam_channel.specs.Claims.{view, IsSeatAt};
ghost use Rattle.crossbeam_channel.specs.Ends.{sends_on, receives_on};

use crate::rule::{Log, Relay};
use crossbeam_channel::{Pass, RuledReceiver, RuledSender};
use thiserror::Error;

/// The end that items are put into. Contracts see what was put by it (`put_by`), and how many puts failed (`failed_by`).
#[derive(Drop)]
pub struct Outgoing<T: Drop> {
    pub(crate) sender: RuledSender<Option<T>, Log<T>, Relay>,
    pub(crate) pass: Pass<Option<T>, Log<T>>,
    // How many puts failed, which stops at `u64::MAX`.
    pub(crate) failed: u64,
    ghost tied: { IsSeatAt (sends_on sender) pass },
    ghost may: { (view pass).puts ≡ true },
}

/// The end that items are taken from. Contracts see what was taken by it (`taken_by`).
#[derive(Drop)]
pub struct Incoming<T: Drop> {
    pub(crate) receiver: RuledReceiver<Option<T>, Log<T>, Relay>,
    pub(crate) pass: Pass<Option<T>, Log<T>>,
    ghost tied: { IsSeatAt (receives_on receiver) pass },
    ghost may: { (view pass).takes ≡ true },
}

/// What is left of an end that items were taken from: what it took.
#[derive(Drop)]
pub struct Taken<T: Drop> {
    pub(crate) pass: Pass<Option<T>, Log<T>>,
    ghost may: { (view pass).takes ≡ true },
}

/// The other end of a channel is gone.
#[derive(Clone, Copy, Debug, PartialEq, Eq, Error)]
#[error("unlinked")]
pub struct Unlinked;
