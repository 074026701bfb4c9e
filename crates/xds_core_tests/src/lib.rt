// Tests of a replica's step and of its replies to polls, of a stream on one thread, and of what
// replicas tell each other: stories with the replies that the protocol has, and worked examples in
// bytes. Nothing else stands here.
#![tactic(auto)]

#[cfg(test)]
mod actor;
#[cfg(test)]
mod cases;
#[cfg(test)]
mod changes;
#[cfg(test)]
mod events;
#[cfg(test)]
mod exchanges;
#[cfg(test)]
mod faults;
#[cfg(test)]
mod groups;
#[cfg(test)]
mod many;
#[cfg(test)]
mod memory;
#[cfg(test)]
mod parts;
#[cfg(test)]
mod polled;
#[cfg(test)]
mod ran;
#[cfg(test)]
mod replies;
#[cfg(test)]
mod rest;
#[cfg(test)]
mod script;
#[cfg(test)]
mod stories;
#[cfg(test)]
mod stream_tests_memory;
#[cfg(test)]
mod twins;
#[cfg(test)]
mod writes;
