// What the halves of a stream know of a node.

pub mod hosts;
