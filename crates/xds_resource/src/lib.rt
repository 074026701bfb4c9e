// What the catalogue of an xDS control plane holds: resources of five of Envoy's types, and stamped writes of them.
#![tactic(auto)]

pub mod any;
mod decimal;
mod for_type;
pub mod groups;
mod json;
pub mod laws;
pub mod names;
pub mod refusal;
pub mod resource;
pub mod stamp;
pub mod types;
pub mod write;

pub use any::{AnyResource, AnyWrite};
pub use decimal::decimal_number;
pub use groups::Groups;
pub use names::NameMap;
pub use refusal::Refusal;
pub use resource::Resource;
pub use stamp::Stamp;
pub use types::{Cluster, Endpoint, Listener, ResourceType, Route, Secret, TypeName};
pub use write::Write;
