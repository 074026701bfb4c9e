// Tests of polls at a node that threads share, by its calls and over a socket. Nothing else stands
// here.
#![tactic(auto)]

#[cfg(test)]
mod asked;
#[cfg(test)]
mod calls;
#[cfg(test)]
mod full;
#[cfg(test)]
mod memory;
#[cfg(test)]
mod once;
#[cfg(test)]
mod places;
#[cfg(test)]
mod polls;
#[cfg(test)]
mod posts;
#[cfg(test)]
mod server;
#[cfg(test)]
mod shares;
#[cfg(test)]
mod sizes;
