// Tests of a node that threads share: what their seats are told, what is left of it, and the traces
// of that; and of the channel between two threads. Nothing else stands here.
#![tactic(auto)]

#[cfg(test)]
mod calls;
#[cfg(test)]
mod cuts;
#[cfg(test)]
mod ends;
#[cfg(test)]
mod full;
#[cfg(test)]
mod histories;
#[cfg(test)]
mod link;
#[cfg(test)]
mod memory;
#[cfg(test)]
mod seats;
#[cfg(test)]
mod sites;
#[cfg(test)]
mod threads;
#[cfg(test)]
mod waits;
