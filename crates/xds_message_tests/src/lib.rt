// Tests of the public calls of resources and interests, of frames, of JSON in order, and of
// messages, writes and drafts: worked examples, and what no clause says, as that calls succeed
// where memory is ample. Nothing else stands here.
#![tactic(auto)]

#[cfg(test)]
mod batches;
#[cfg(test)]
mod delta;
#[cfg(test)]
mod drafts;
#[cfg(test)]
mod framing;
#[cfg(test)]
mod message;
#[cfg(test)]
mod ordered;
#[cfg(test)]
mod resources;
#[cfg(test)]
mod writes;
