// Tests of the public calls of frames and of counted devices: worked examples, and what no clause
// says, as that calls succeed where memory is ample.

mod counted;
mod frames;
mod memory;
