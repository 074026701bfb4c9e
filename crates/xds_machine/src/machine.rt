// What the commands take of a runtime.
use crate::folder::ReadsFolders;
use crate::stores::OpensStores;
use std::alloc::AllocGlobal;
use std::net::{Net, TcpListener, TcpStream};
use std::random::RandomSource;
use std::sync::Wait;
use std::thread::Threads;
use std::time::Clock;

/// What a runtime has that a run takes, beside the network.
pub trait Runtime: Wait
    + Threads
    + Clock
    + RandomSource
    + AllocGlobal
    + OpensStores
    + ReadsFolders
    + Copy
    + Drop
    + Send
    + Sync
    + 'static {}

impl<R> Runtime for R
where
    R: Wait
        + Threads
        + Clock
        + RandomSource
        + AllocGlobal
        + OpensStores
        + ReadsFolders
        + Copy
        + Drop
        + Send
        + Sync
        + 'static,
{}

/// A runtime and its network. What is called with a runtime's own type, as `run` is, names both bounds: a proof doesn't
/// cover such a call by this name.
pub trait Machine: Runtime + Net<Listener = TcpListener, Stream = TcpStream> {}

impl<R: Runtime + Net<Listener = TcpListener, Stream = TcpStream>> Machine for R {}
