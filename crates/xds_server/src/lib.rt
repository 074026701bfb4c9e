// The server of a replicated xDS control plane, which is replicas that proxies connect to, in one process: what it begins with, its
// ports, its threads, and its end.
#![tactic(auto)]

pub mod beginning;
mod binding;
pub mod server;
mod starting;
mod unbegun;
mod world;

pub use beginning::ServeFiles;
pub use server::{Serving, serve};
