// Runs of servers one after another over one store: what holds of clients that go on from one to the next.
#![tactic(auto)]

pub mod laws;
