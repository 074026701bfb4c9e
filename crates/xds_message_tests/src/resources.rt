// Tests of the public calls of resources and interests, in modules named for what they test: worked
// examples, and what no clause says, as that calls succeed where memory is ample.

mod groups;
mod interest;
mod resource;
mod stamp;
mod streams;
