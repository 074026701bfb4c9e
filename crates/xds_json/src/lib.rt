// JSON that borrows its text, read in order, so that it is written again with no value made of it.
// What the messages of Envoy's discovery service are made of, in the proto3 JSON mapping: their fields by kind, and the
// parts that requests of both variants have.
#![tactic(auto)]

pub mod fields;
pub mod looking;
pub mod node;
pub mod reading;
pub mod status;
pub mod versions;
pub mod writing;

pub use fields::{copy_texts, copy_values, read_json};
pub use looking::{find_member, text_in, texts_in, whole_number};
pub use node::Node;
pub use reading::read_ordered;
pub use status::Status;
pub use versions::Versions;
pub use writing::text_of;
