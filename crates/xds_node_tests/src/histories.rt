// Tests of the traces of what a node left.

mod story;
mod traces;
