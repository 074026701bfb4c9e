// Tests of the clients' public calls: worked examples, and what no clause says, as that calls
// succeed where memory is ample.

mod clients;
mod delta;
mod memory;
mod polling;
mod rest;
mod script;
mod sotw;
