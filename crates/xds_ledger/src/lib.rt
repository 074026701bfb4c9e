// What a server told a client of one type on one stream, and what it owes.
// What a client is owed of one type and what a response says, from what the client is believed to hold.
// What a server believes that a client holds of one type, and how answers and requests change it.
#![tactic(auto)]

pub mod accepting;
mod account;
pub mod beliefs;
pub mod believed;
pub mod changes;
pub mod copying;
pub mod differences;
pub mod entry;
pub mod flat;
pub mod laws;
pub mod ledger;
pub mod listed;
mod listing;
mod looks;
mod named;
pub mod names;
pub mod nonces;
pub mod offers;
pub mod outcome;
pub mod owed;
mod rebasing;
pub mod repeats;
pub mod sent;
pub mod shared_map;
pub mod storing;
mod taking;
pub mod texts;
pub mod told;
pub mod variant;
pub mod version;

pub use believed::Beliefs;
pub use differences::Differences;
pub use entry::{Due, Entry};
pub use ledger::Ledger;
pub use listed::Listed;
pub use names::Names;
pub use nonces::Nonces;
pub use offers::offer;
pub use outcome::Outcome;
pub use owed::something_owed;
pub use sent::Sent;
pub use shared_map::SharedMap;
pub use told::Believed;
pub use variant::{Delta, StateOfTheWorld, Variant, VariantName};
pub use version::Version;
