// The messages of Envoy's discovery service in the proto3 JSON mapping: what their JSON is read as, and what is written. The
// writes that replicas exchange, and batches of them, are passed on from where they are made.
// Stamped writes in the form in which replicas exchange and keep them, and batches of them.
// Responses before they are written: joined from the stored texts of resources, with no JSON value made of the whole.
#![tactic(auto)]

pub mod batch;
mod body;
pub mod delta_draft;
pub mod delta_request;
pub mod delta_response;
pub mod draft;
mod filling;
mod in_order;
mod joining;
pub mod laws;
pub mod pieces;
pub mod request;
pub mod response;
pub mod sotw_draft;
mod stated;
pub mod unsent;
pub mod write_laws;
pub mod writes;

pub use batch::Batch;
pub use body::Body;
pub use delta_draft::{DeltaDraft, DraftResource, push_resource};
pub use delta_request::DeltaDiscoveryRequest;
pub use delta_response::{DeltaDiscoveryResponse, DeltaResource};
pub use draft::{Draft, Response};
pub use pieces::Pieces;
pub use request::DiscoveryRequest;
pub use response::DiscoveryResponse;
pub use sotw_draft::{SotwDraft, push_body};
pub use stated::{Bodies, Resources, Stated};
pub use unsent::Unsent;
pub use writes::{WriteReader, read_write, write_object};
pub use xds_json::{Node, Status, Versions, copy_texts};
