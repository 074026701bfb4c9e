// Tests of what replicas tell each other: parts of batches, and rounds by marks.

mod memory;
mod parts;
mod replicas;
mod rounds;
