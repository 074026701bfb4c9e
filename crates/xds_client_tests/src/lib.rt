// Tests of caches and of a client on one stream: worked examples, cut and failing devices,
// connections, and that calls succeed where memory is ample. Nothing else stands here.
#![tactic(auto)]

#[cfg(test)]
mod caches;
#[cfg(test)]
mod cases;
#[cfg(test)]
mod connections;
#[cfg(test)]
mod faults;
#[cfg(test)]
mod ran;
