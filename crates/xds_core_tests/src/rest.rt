// Tests of replies to polls: worked examples, and what no clause says, as that a poll succeeds
// where memory is ample.

mod memory;
mod parts;
mod polls;
mod refusals;
mod served;
mod sizes;
