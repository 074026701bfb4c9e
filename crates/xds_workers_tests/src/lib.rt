// Tests of worker threads round nodes: what no clause says, as that two threads of a stream end,
// and that what one node holds comes to another. Nothing else stands here.
#![tactic(auto)]

#[cfg(test)]
mod alone;
#[cfg(test)]
mod beside;
#[cfg(test)]
mod calls;
#[cfg(test)]
mod cuts;
#[cfg(test)]
mod exchanges;
#[cfg(test)]
mod filling;
#[cfg(test)]
mod frail;
#[cfg(test)]
mod gates;
#[cfg(test)]
mod halves;
#[cfg(test)]
mod limits;
#[cfg(test)]
mod lost;
#[cfg(test)]
mod named;
#[cfg(test)]
mod parcels;
#[cfg(test)]
mod places;
#[cfg(test)]
mod short;
#[cfg(test)]
mod sites;
#[cfg(test)]
mod streams;
